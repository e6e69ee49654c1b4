// The worked histories, as a theorem.
ghost use Rattle.std.specs.Prelude.{◌≡◌, length};
ghost use Rattle.audit.specs.Examples.{histories, HistoriesHold};

// How many worked histories specs/Examples.antt has; each of them comes to what is shown there.
pub fn histories_hold() -> usize
    ensures counted { result ≡ length histories }
    ensures held { HistoriesHold }
{
    3
}
