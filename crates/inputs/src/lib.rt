// The inputs that a program is given: the files named in its arguments, or standard input.
#![tactic(auto)]

#[cfg(test)]
mod tests;

ghost use Rattle.std.specs.Prelude.{Ok, OnOk};
ghost use Rattle.inputs.specs.Inputs.{RanAtInputs};

use std::env;
use std::fs::File;
use std::io::Read;

// The first `limit` bytes of a file or, for -, of standard input.
fn input_of(rt: &HostRuntime, name: &str, limit: u64) -> anyhow::Result<Vec<u8>> {
    let mut input = Vec::new(rt.alloc());
    if name == "-" {
        rt.stdin().take(limit).read_to_end(&mut input)?;
    } else {
        File::open(rt, name)?.take(limit).read_to_end(&mut input)?;
    }
    Ok(input)
}

// Calls `act` with the first `limit` bytes of each input that the arguments name, one after the other, or with those of
// standard input where they name none. It stops at an error. So where it succeeds, `act` succeeded at one input or
// more.
pub fn for_each_input<F: FnMut(&[u8]) -> anyhow::Result<()>>(
    rt: &HostRuntime,
    limit: u64,
    mut act: F,
) -> anyhow::Result<()>
    requires { F.IsAlwaysCallable act }
    ensures { OnOk result ((last : F) × RanAtInputs (λ f input g. F.step f input (Ok tt) g) act last) }
{
    let mut names = env::args(rt)?.skip(1);
    let first = names.next();
    let name = first.as_ref().map_or("-", |name| name.as_str());
    act(&input_of(rt, name, limit)?)?;
    for name in names {
        act(&input_of(rt, name.as_str(), limit)?)?;
    }
    Ok(())
}
