// The worked examples, as a theorem.
ghost use Rattle.std.specs.Prelude.{◌≡◌, length};
ghost use Rattle.dmac.specs.Examples.{examples, ExamplesHold};

// How many worked examples specs/Examples.antt has; each of them holds.
pub fn examples_hold() -> usize
    ensures counted { result ≡ length examples }
    ensures held { ExamplesHold }
{
    7
}
