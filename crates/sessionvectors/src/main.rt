// Answers the cases of sessions that standard input holds, as `payoff script` does.

#![tactic(auto)]

use std::io;

fn main(rt: HostRuntime) -> io::Result<()> {
    cases::serve(&rt)
}
