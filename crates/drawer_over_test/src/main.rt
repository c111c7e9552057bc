// The drawer program, run on the same input with one byte more in its limit: refusal 10 at line 1.
#![tactic(auto)]

fn main() {
    drawer_program::run();
}
