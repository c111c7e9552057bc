// The drawer program.
#![tactic(auto)]

fn main() {
    drawer_program::run();
}
