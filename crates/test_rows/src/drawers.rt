// Drawers compared, and counted up.
use crate::Drawer;

// How many were compared, and how many agreed; beside it a sum.
#[derive(Clone, Copy, Default)]
pub struct Tally {
    pub compared: usize,
    pub agreed: usize,
    pub sum: usize,
}

impl Tally {
    // One more.
    pub fn with(self, agrees: bool, sum: usize) -> Tally {
        self.plus(Tally {
            compared: 1,
            agreed: usize::from(agrees),
            sum,
        })
    }

    pub fn plus(self, other: Tally) -> Tally {
        Tally {
            compared: self.compared.wrapping_add(other.compared),
            agreed: self.agreed.wrapping_add(other.agreed),
            sum: self.sum.wrapping_add(other.sum),
        }
    }
}

// All drawers of 1 up to so many stations, of each kind from 1 on: a line for a kind.
pub fn show_all<F: Fn(Drawer) -> Tally>(text: &[u8], most: usize, kinds: u8, compare: F)
    requires { F.IsAlwaysCallable compare }
{
    for kind in 1..=kinds {
        let mut tally = Tally::default();
        for n in 1..=most {
            for d in 0..=n {
                tally = tally.plus(compare(Drawer { n, d, kind }));
            }
        }
        let numbers = [usize::from(kind), tally.compared, tally.agreed, tally.sum];
        crate::print_filled(text, &numbers);
    }
}
