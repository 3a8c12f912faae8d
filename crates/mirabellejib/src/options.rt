// Options, added up.
ghost use Rattle.std.specs.Prelude.{◌≡◌, ◌<◌, [], cond, map};
ghost use Rattle.mirabellejib.specs.Options.{has, bound_by, support_by, option_of};

use deciding::Support;

// What the payoff's engine knows: template literals, and the operator `**`.
const TEMPLATES: u32 = 1;

const POWER: u32 = 2;

// Which of the language's own names something else binds where the payoff runs.
const BINDS_UNDEFINED: u32 = 4;

const BINDS_MATH: u32 = 8;

const BINDS_ARRAY: u32 = 16;

// Whether the options have this one.
fn has(options: u32, option: u32) -> bool
    requires { 0 < option }
    ensures { result ≡ has options option }
{
    options / option % 2 == 1
}

pub(crate) fn support_by(options: u32) -> Support
    ensures { result ≡ support_by options }
{
    Support {
        templates: has(options, TEMPLATES),
        power: has(options, POWER),
    }
}

// The names that are bound, each in its stored form; where one is not, the empty name, which is none of the language's own.
pub(crate) fn bound_by(options: u32) -> [&'static [u8]; 3]
    ensures { map (λ name. name.now) result ≡ bound_by options }
{
    [
        name_if(options, BINDS_UNDEFINED, b"undefined"),
        name_if(options, BINDS_MATH, b"Math"),
        name_if(options, BINDS_ARRAY, b"Array"),
    ]
}

fn name_if(options: u32, option: u32, name: &'static [u8]) -> &'static [u8]
    requires { 0 < option }
    ensures { result.now ≡ cond (has options option) name.now [] }
{
    if has(options, option) { name } else { b"" }
}

// The option that a name in scope adds, or 0 where the name is none of the language's own that are asked about.
#[unsafe(no_mangle)]
pub extern "C" fn mirabellejib_binds(name: &[u8]) -> u32
    ensures { result ≡ option_of name.now }
{
    if name == b"undefined".as_slice() {
        BINDS_UNDEFINED
    } else if name == b"Math".as_slice() {
        BINDS_MATH
    } else if name == b"Array".as_slice() {
        BINDS_ARRAY
    } else {
        0
    }
}
