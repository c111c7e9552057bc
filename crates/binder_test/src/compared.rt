// What puts and fetches are due to say and to leave.
use binder::Binder;
use refusal::Refusal;
use walk::Walk;

// What a put is due to say.
pub fn put_due(name: usize, walk: Walk) -> Result<(), Refusal> {
    if 7 < name {
        return Err(Refusal::Name);
    }
    if walk.step(1000).answer == Err(Refusal::Unfit) {
        return Err(Refusal::Unfit);
    }
    Ok(())
}

// What a fetch is due to say, of a name under which something was put or not.
pub fn fetch_due(name: usize, put: bool) -> Result<(), Refusal> {
    if 7 < name {
        return Err(Refusal::Name);
    }
    if !put {
        return Err(Refusal::NothingPut);
    }
    Ok(())
}

// Whether the same stands under a name: the same walk, or nothing.
fn is_same(walk: Option<Walk>, other: Option<Walk>) -> bool {
    match (walk, other) {
        (Some(x), Some(y)) => walk_records::same_walk(x, y),
        (None, None) => true,
        _ => false,
    }
}

// How many names have another bookmark than is due, where a walk was put under a name, or nothing was.
pub fn misfiled(before: Binder, after: Binder, put: Option<(usize, Walk)>) -> usize {
    let mut due = before.bookmarks;
    if let Some((name, walk)) = put {
        if name < binder::NAMES {
            due[name] = Some(walk);
        }
    }
    due.iter()
        .zip(&after.bookmarks)
        .filter(|(x, y)| !is_same(**x, **y))
        .count()
}
