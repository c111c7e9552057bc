// Puts and fetches: single cases, lists at random of all calls against a plain model, and binders that no list of puts
// makes.
#![tactic(auto)]

mod calls;
mod compared;
mod counts;
mod lists;
mod model;
mod offered;
mod single;

use counts::Counts;

// Lists or binders, in hundreds.
fn show_random<F: Fn(Counts, usize) -> Counts>(name: &[u8], compare: F)
    requires { F.IsAlwaysCallable compare }
{
    for hundred in 0..4 {
        let from = hundred * 100;
        let mut counts = Counts::new();
        for number in from..from + 100 {
            counts = compare(counts, number);
        }
        io::write_all(1, name);
        counts::print(counts, from);
    }
}

fn main() {
    // nothing put, each walk, the last put, other names, unfit records, names above 7
    single::show_calls(
        b"new,f 0,f 1,f 6,f 7,f 8,f 255,f most,\
          new,a 0,f 0,f 1,f 7,\
          new,b 7,f 7,f 6,f 0,f 8,\
          new,c 1,f 1,f 1,\
          new,a 6,f 6,f 6,\
          new,a 0,b 0,f 0,\
          new,b 7,a 7,c 7,f 7,\
          new,a 0,a 0,f 0,\
          new,a 0,b 1,f 0,f 1,\
          new,a 6,b 7,c 6,f 7,f 6,\
          new,x 0,f 0,x 7,f 7,\
          new,a 0,x 0,f 0,b 7,x 7,f 7,\
          new,a 1,x 0,f 0,f 1,\
          new,x 8,x 255,x most,f 8,\
          new,a 8,b 255,c most,f 0,f 7,f 8,\
          new,b 7,a 8,f 7,x 8,f 7,\
          new,a 0,b 255,f 0,f 255,c most,f 0,\
          new,a 0,b 1,a 6,b 7,f 0,f 1,f 6,f 7,",
    );
    show_random(b"lists at random", lists::compare_list);
    show_random(b"binders at random", lists::compare_binder);
}
