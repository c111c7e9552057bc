// The ways to choose, of up to 10 stations, against counting the rows one by one.
// For each n and d, at place 16 n + d, how many rows there are.
fn tally() -> [usize; 176] {
    let mut tally = [0usize; 176];
    for number in 1..2048 {
        let n = test_rows::stations(number);
        let row = test_rows::row_of_number(n, number);
        let place = n % 11 * 16 + test_rows::count(&row, 1) % 16;
        tally[place] = tally[place].wrapping_add(1);
    }
    tally
}

// Whether the look-up gives as many rows as there are, or refuses where there is none.
fn agrees(n: usize, d: usize, rows: usize) -> bool {
    match pascal::ways(n, d) {
        Ok(x) => x == rows as u64,
        Err(_) => rows == 0,
    }
}

pub fn compare_all() {
    let tally = tally();
    let rows = tally
        .iter()
        .fold(0, |rows: usize, count| rows.wrapping_add(*count));
    let pairs = tally.iter().enumerate();
    let agreed = pairs.filter(|(place, count)| agrees(place / 16, place % 16, **count));
    test_rows::print_filled(
        b"rows of up to 10 stations: rows # pairs 176 agreed #\n",
        &[rows, agreed.count()],
    );
}
