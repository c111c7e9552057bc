// The drawer program, run on an input of 256 bytes, as long as one may be: it is read, and its limit is refused.
#![tactic(auto)]

fn main() {
    drawer_program::run();
}
