// What steps say of many records, added up.
use refusal::{MOST_STATIONS, Refusal};
use walk::{Answer, Walk};

// Steps by their answer; how many that were refused 20 or 22 changed the record or counted trials; how many carry
// another place or keep another row than plain search says; and the sums of trials, of the rows as numbers, of the
// standings' places, of the places carried and of the rows kept.
#[derive(Clone, Copy, Default)]
pub struct Outcomes {
    pub rings: usize,
    pub nones: usize,
    pub ended: usize,
    pub spent: usize,
    pub unfit: usize,
    pub changed: usize,
    pub misplaced: usize,
    pub trials: usize,
    pub rows: usize,
    pub places: usize,
    pub carried: usize,
    pub kept: usize,
}

// Whether a step is refused, but not as spent, and yet changed the record or counted trials.
fn is_changed(said: Result<Answer, Refusal>, before: Walk, after: Walk, trials: u64) -> bool {
    match said {
        Ok(_) => false,
        Err(Refusal::Spent) => false,
        Err(_) => trials != 0 || !walk_records::same_walk(after, before),
    }
}

// Whether a step carries another place, or keeps another row, than plain search says.
fn is_misplaced(said: Result<Answer, Refusal>, before: Walk, after: Walk, carried: usize) -> bool {
    match said {
        // a ring is kept
        Ok(Answer::Ring) => {
            carried != test_walks::first_difference(before.n, &before.kept, &after.row)
                || after.kept != after.row
        }
        // after none zeros are kept, after a refusal what was kept
        Ok(Answer::None) => carried != 0 || after.kept != [0; MOST_STATIONS],
        Err(_) => carried != 0 || after.kept != before.kept,
    }
}

// A step of a record.
fn outcome(w: Walk, allowance: u64) -> Outcomes {
    let step = w.step(allowance);
    let said = step.answer;
    let after = step.walk;
    Outcomes {
        rings: usize::from(said == Ok(Answer::Ring)),
        nones: usize::from(said == Ok(Answer::None)),
        ended: usize::from(said == Err(Refusal::Ended)),
        spent: usize::from(said == Err(Refusal::Spent)),
        unfit: usize::from(said == Err(Refusal::Unfit)),
        changed: usize::from(is_changed(said, w, after, step.trials)),
        misplaced: usize::from(is_misplaced(said, w, after, step.place)),
        trials: step.trials as usize,
        rows: test_walks::number_of(after.n, &after.row),
        places: walk_records::standing_place(after.at),
        carried: step.place,
        kept: test_walks::number_of(after.n, &after.kept),
    }
}

impl Outcomes {
    // One step more.
    pub fn with(self, w: Walk, allowance: u64) -> Outcomes {
        let one = outcome(w, allowance);
        Outcomes {
            rings: test_walks::plus(self.rings, one.rings),
            nones: test_walks::plus(self.nones, one.nones),
            ended: test_walks::plus(self.ended, one.ended),
            spent: test_walks::plus(self.spent, one.spent),
            unfit: test_walks::plus(self.unfit, one.unfit),
            changed: test_walks::plus(self.changed, one.changed),
            misplaced: test_walks::plus(self.misplaced, one.misplaced),
            trials: test_walks::plus(self.trials, one.trials),
            rows: test_walks::plus(self.rows, one.rows),
            places: test_walks::plus(self.places, one.places),
            carried: test_walks::plus(self.carried, one.carried),
            kept: test_walks::plus(self.kept, one.kept),
        }
    }

    pub fn print(self) {
        test_rows::print_filled(
            b" rings # none # ended # spent # unfit # changed # misplaced # trials # rows # places # carried # kept #\n",
            &[
                self.rings,
                self.nones,
                self.ended,
                self.spent,
                self.unfit,
                self.changed,
                self.misplaced,
                self.trials,
                self.rows,
                self.places,
                self.carried,
                self.kept,
            ],
        );
    }
}
