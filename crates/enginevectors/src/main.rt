// Answers the cases that a JavaScript engine has run before and after, as `payoff script` does.

#![tactic(auto)]

use std::io;

fn main(rt: HostRuntime) -> io::Result<()> {
    cases::serve(&rt)
}
