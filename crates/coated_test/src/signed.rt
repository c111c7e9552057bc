// Signed turns, in the test program's own numbers.
ghost use Rattle.std.specs.Prelude.{◌≤◌};

// How far from zero a turn is; 65 for one that is farther than 64.
pub fn amount(turn: i64) -> usize
    ensures { result ≤ 65 }
{
    turn.unsigned_abs().min(65) as usize
}

// A turn as a number: its amount, and 5000 more for one below zero.
pub fn told(turn: i64) -> usize
    ensures { result ≤ 5065 }
{
    if turn < 0 {
        return 5000 + amount(turn);
    }
    amount(turn)
}
