//! The locks that are held, in chains by the clients that hold them. The links below [`CHAINS`] are the ends of the chains, and the
//! link of a lock is its number above them. From an end one comes over the held locks of its chain back to an end. A lock that
//! nobody holds comes after itself.

ghost use Rattle.std.specs.Prelude.{◌≡◌, ◌+◌, ◌%◌, ◌<◌, ◌≤◌, List, [], ◌∷◌, ◌++◌, length, slice_set, Option, None, OnOk, OnErr, vec_capacity, vec_len, ℕ};
ghost use Rattle.held_locks.specs.Holding.{chain_count, IsLinked, IsSpliced, AreChained, AreFound, noted};

use std::alloc::AllocError;

/// How many chains there are.
const CHAINS: usize = 4096;

/// The chain of a client's locks.
fn chain_of(client: u64) -> usize
    ensures is { result ≡ client % chain_count }
    ensures small { result < chain_count }
{
    (client % CHAINS as u64) as usize
}

/// Exchanges what comes after two links.
fn splice(next: &mut Vec<usize>, previous: &mut Vec<usize>, a: usize, b: usize)
    requires linked { IsLinked next.old.items previous.old.items }
    requires first { a < length next.old.items }
    requires second { b < length next.old.items }
    ensures spliced { IsSpliced next.old.items next.new.items a b }
    ensures linked { IsLinked next.new.items previous.new.items }
{
    let after_a = next[a];
    let after_b = next[b];
    next[a] = after_b;
    next[b] = after_a;
    previous[after_b] = a;
    previous[after_a] = b;
}

/// The lock is held by this client, or by nobody, from now on.
pub(crate) fn put(
    next: &mut Vec<usize>,
    previous: &mut Vec<usize>,
    clients: &mut Vec<Option<u64>>,
    lock: usize,
    client: Option<u64>,
)
    requires chained { AreChained chain_count next.old.items previous.old.items clients.old.items }
    requires lock { lock < length clients.old.items }
    ensures chained { AreChained chain_count next.new.items previous.new.items clients.new.items }
    ensures clients { clients.new.items ≡ slice_set clients.old.items lock client }
{
    clients[lock] = client;
    let link = CHAINS + lock;
    let before = previous[link];
    splice(next, previous, before, link);
    match client {
        Some(client) => splice(next, previous, chain_of(client), link),
        None => {}
    }
}

/// A link more, which comes after itself.
fn add_link(next: &mut Vec<usize>, previous: &mut Vec<usize>) -> Result<(), AllocError>
    ensures ok { OnOk result ((next.new.items ≡ next.old.items ++ length next.old.items ∷ [])
        × (previous.new.items ≡ previous.old.items ++ length next.old.items ∷ [])) }
    ensures err { OnErr result ((next.new.items ≡ next.old.items)
        × (previous.new.items ≡ previous.old.items)) }
{
    let Ok(()) = next.reserve(1) else {
        return Err(AllocError);
    };
    let Ok(()) = previous.reserve(1) else {
        return Err(AllocError);
    };
    let link = next.len();
    next.push_reserved(link);
    previous.push_reserved(link);
    Ok(())
}

/// The ends of the chains are there from now on.
fn add_ends(next: &mut Vec<usize>, previous: &mut Vec<usize>) -> Result<(), AllocError>
    ensures chained { (clients : List (Option ℕ))
        → AreChained chain_count next.old.items previous.old.items clients
        → AreChained chain_count next.new.items previous.new.items clients }
    ensures ok { OnOk result (chain_count ≤ length next.new.items) }
{
    while next.len() < CHAINS {
        let Ok(()) = add_link(next, previous) else {
            return Err(AllocError);
        };
    }
    Ok(())
}

/// A lock more, which nobody holds.
pub(crate) fn add(
    next: &mut Vec<usize>,
    previous: &mut Vec<usize>,
    clients: &mut Vec<Option<u64>>,
) -> Result<(), AllocError>
    requires { AreChained chain_count next.old.items previous.old.items clients.old.items }
    ensures chained { AreChained chain_count next.new.items previous.new.items clients.new.items }
    ensures ok { OnOk result (clients.new.items ≡ clients.old.items ++ None ∷ []) }
    ensures err { OnErr result (clients.new.items ≡ clients.old.items) }
{
    let Ok(()) = add_ends(next, previous) else {
        return Err(AllocError);
    };
    let Ok(()) = clients.reserve(1) else {
        return Err(AllocError);
    };
    let Ok(()) = add_link(next, previous) else {
        return Err(AllocError);
    };
    clients.push_reserved(None);
    Ok(())
}

/// Appends the lock, if it is this client's.
fn note(found: &mut Vec<usize>, lock: usize, holder: Option<u64>, client: u64)
    requires { vec_len found.old < vec_capacity found.old }
    ensures items { found.new.items ≡ noted found.old.items lock holder client }
    ensures len { vec_len found.new ≤ vec_len found.old + 1 }
    ensures capacity { vec_capacity found.new ≡ vec_capacity found.old }
{
    let Some(holder) = holder else {
        return;
    };
    if holder == client {
        found.push_reserved(lock);
    }
}

/// The locks that a client holds, after nothing.
pub(crate) fn find(
    next: &Vec<usize>,
    clients: &Vec<Option<u64>>,
    client: u64,
    found: &mut Vec<usize>,
)
    requires chained { (previous : List ℕ)
        × AreChained chain_count next.now.items previous clients.now.items }
    requires empty { found.old.items ≡ [] }
    requires room { length clients.now.items ≤ vec_capacity found.old }
    ensures found { AreFound clients.now.items client found.new.items }
    ensures capacity { vec_capacity found.new ≡ vec_capacity found.old }
{
    let chain = chain_of(client);
    if chain >= next.len() {
        return;
    }
    let mut link = next[chain];
    let mut more = clients.len();
    while more > 0 {
        if link < CHAINS {
            return;
        }
        let lock = link - CHAINS;
        let holder = clients[lock];
        note(found, lock, holder, client);
        let after = next[link];
        link = after;
        more -= 1;
    }
}
