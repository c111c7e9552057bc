// The drawer program, run on an empty input: refusal 10 at line 1.
#![tactic(auto)]

fn main() {
    drawer_program::run();
}
