//! Writes lists of locks.

ghost use Rattle.std.specs.Prelude.{map};
ghost use Rattle.text_lines.specs.Writing.{Writes};
ghost use Rattle.folder_of_locks.specs.Lists.{listed, lock_line, file_text};
ghost use Rattle.folder_of_locks.specs.Pools.{pooled, pool_line, pooled_text};

use crate::locks::ListedLock;
use crate::pools::FolderList;
use itoa::Buffer;
use ring_state::Params;
use std::io::Write;
use text_lines::{WriteFault, put_all};

/// Writes the line of a lock.
fn put_lock<W: Write>(out: &mut W, lock: &ListedLock<'_>) -> Result<(), WriteFault>
    ensures { Writes (W.contents out.old) (W.contents out.new) result
        (lock_line (listed lock.now)) }
{
    let mut buffers = (Buffer::new(), Buffer::new());
    let n = buffers.0.format(lock.n).as_bytes();
    let k = buffers.1.format(lock.k).as_bytes();
    put_all(out, &[lock.name.as_bytes(), b" ", n, b" ", k, b"\n"])
}

/// Writes the text of the file of these locks.
///
/// # Errors
///
/// `WriteFault` at the first error of the writer, or write of 0 bytes.
pub fn put_list<W: Write>(out: &mut W, locks: &[ListedLock<'_>]) -> Result<(), WriteFault>
    ensures { Writes (W.contents out.old) (W.contents out.new) result
        (file_text (map listed locks.now)) }
{
    for lock in locks {
        match put_lock(out, lock) {
            Ok(()) => {}
            Err(fault) => return Err(fault),
        }
    }
    Ok(())
}

/// Writes the line of a pool, if there is one.
fn put_pool<W: Write>(out: &mut W, pool: Option<Params>) -> Result<(), WriteFault>
    ensures { Writes (W.contents out.old) (W.contents out.new) result (pool_line pool) }
{
    let Some(size) = pool else {
        return Ok(());
    };
    let mut buffers = (Buffer::new(), Buffer::new());
    let n = buffers.0.format(size.n()).as_bytes();
    let k = buffers.1.format(size.k()).as_bytes();
    put_all(out, &[b"* ", n, b" ", k, b"\n"])
}

/// Writes the text of the file of this list: the locks, and then the pool.
///
/// # Errors
///
/// `WriteFault` at the first error of the writer, or write of 0 bytes.
pub fn put_folder_list<W: Write>(out: &mut W, list: &FolderList<'_>) -> Result<(), WriteFault>
    ensures { Writes (W.contents out.old) (W.contents out.new) result
        (pooled_text (pooled list.now)) }
{
    match put_list(out, &list.locks) {
        Ok(()) => put_pool(out, list.pool),
        Err(fault) => Err(fault),
    }
}
