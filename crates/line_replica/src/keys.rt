//! What is kept of each key.

ghost use Rattle.std.specs.Prelude.{◌≡◌, ◌++◌, ◌<◌, ◌^◌, [], length, OnOk, OnErr, IfOk};
ghost use Rattle.line_service.specs.Answering.{joined_lines};
ghost use Rattle.segment_files.specs.Remarks.{remark_of};
ghost use Rattle.line_replica.specs.State.{key_line, key_lines, kept_line, forget_line, remarks_of};
ghost use Rattle.std.specs.Ordering.{nat_cmp};
ghost use Rattle.line_replica.specs.Keys.{told_of, last_of, with_told, without, turn_by, turn_after, first_of, first_line, forgotten_if};
ghost use Rattle.line_replica.specs.Replies.{forget_note};

use crate::reading::Tag;
use segment_files::put_remark;
use std::alloc::{AllocError, Global};
use std::cmp::Ordering;
use std::collections::BTreeMap;
use std::marker::Model;
use text_lines::{Line, put_word};

/// The last number of a key, and the first line of its answer, which is sent again. Contracts see both.
#[derive(Drop)]
pub(crate) struct Told {
    number: u64,
    first: Vec<u8>,
}

impl Model for Told {
    ghost use Rattle.line_replica.specs.Keys.{ToldView};

    ghost Value = { ToldView };

    ghost view = { λ t. record { number = t.number; first = t.first.items } };
}

impl Clone for Told {
    ghost use Rattle.std.specs.Prelude.{◌≡◌};

    ghost is_clone = { λ t u. u ≡ t };

    fn clone(&self) -> Result<Told, AllocError> {
        let first = self.first.clone()?;
        Ok(Told {
            number: self.number,
            first,
        })
    }
}

/// Whether a number is new, or the last, or one before it.
#[derive(Clone, Copy)]
pub(crate) enum Turn {
    Fresh,
    Again,
    Past { last: u64 },
}

/// What is kept of each key. Contracts see the keys, rising, each with its last number and first line.
#[derive(Drop)]
pub(crate) struct Keys {
    alloc: Global,
    told: BTreeMap<u64, Told>,
}

impl Model for Keys {
    ghost use Rattle.line_replica.specs.Keys.{Table};

    ghost Value = { Table };

    ghost view = { λ k. k.told.entries };
}

/// The first line of a text, with its LF.
pub(crate) fn first_line(text: &[u8]) -> &[u8]
    ensures { result.now ≡ first_line text.now }
{
    for (i, byte) in text.iter().enumerate() {
        if *byte == b'\n' {
            return &text[..i + 1];
        }
    }
    text
}

/// Whether a number is new, where this one is the last.
fn turn_by(number: u64, last: u64) -> Turn
    ensures { result ≡ turn_by (nat_cmp number last) last }
{
    match number.cmp(&last) {
        Ordering::Less => Turn::Past { last },
        Ordering::Equal => Turn::Again,
        Ordering::Greater => Turn::Fresh,
    }
}

/// Adds the line of a key, with this last number and first line.
fn put_key(tag: Tag, first: &[u8], text: &mut Vec<u8>) -> Result<(), AllocError>
    ensures { OnOk result (text.new.items ≡ text.old.items ++ kept_line tag first.now) }
{
    let mut line = Line::new();
    put_word(&mut line, b"did ");
    line.byte(b' ');
    line.number(tag.number);
    line.byte(b' ');
    line.number(tag.key);
    text.extend_from_slice(line.as_bytes())?;
    let first: &[u8] = if first.is_empty() { b"\n" } else { first };
    text.extend_from_slice(first)
}

/// Adds the line of a key, with what is kept of it.
fn put_told(key: u64, told: &Told, text: &mut Vec<u8>) -> Result<(), AllocError>
    ensures { OnOk result (text.new.items ≡ text.old.items ++ key_line (key, told.now)) }
{
    let number = told.number;
    put_key(Tag { key, number }, &told.first, text)
}

/// Adds the lines of all keys.
fn put_keys(keys: &BTreeMap<u64, Told>, text: &mut Vec<u8>) -> Result<(), AllocError>
    ensures { OnOk result (text.new.items
        ≡ text.old.items ++ joined_lines (key_lines keys.now.entries)) }
{
    for (key, told) in keys {
        match put_told(*key, told, text) {
            Ok(()) => {}
            Err(AllocError) => return Err(AllocError),
        }
    }
    Ok(())
}

/// Adds the remark that this number is the last of its key, with this first line.
fn note_key(alloc: Global, tag: Tag, first: &[u8], notes: &mut Vec<u8>) -> Result<(), AllocError>
    ensures { OnOk result (notes.new.items
        ≡ notes.old.items ++ remark_of (kept_line tag first.now)) }
{
    let mut line = Vec::new(alloc);
    match put_key(tag, first, &mut line) {
        Ok(()) => put_remark(&line, notes),
        Err(AllocError) => Err(AllocError),
    }
}

/// Adds the remark of the line of a key, with what is kept of it.
fn note_told(alloc: Global, key: u64, told: &Told, text: &mut Vec<u8>) -> Result<(), AllocError>
    ensures { OnOk result (text.new.items
        ≡ text.old.items ++ remark_of (key_line (key, told.now))) }
{
    let number = told.number;
    note_key(alloc, Tag { key, number }, &told.first, text)
}

/// Adds the remarks of the lines of all keys.
fn note_keys(
    alloc: Global,
    keys: &BTreeMap<u64, Told>,
    text: &mut Vec<u8>,
) -> Result<(), AllocError>
    ensures { OnOk result (text.new.items
        ≡ text.old.items ++ remarks_of (key_lines keys.now.entries)) }
{
    for (key, told) in keys {
        match note_told(alloc, *key, told, text) {
            Ok(()) => {}
            Err(AllocError) => return Err(AllocError),
        }
    }
    Ok(())
}

/// Adds the remark that nothing is kept of a key any more.
fn note_forgotten(tag: Tag, notes: &mut Vec<u8>) -> Result<(), AllocError>
    ensures { OnOk result (notes.new.items ≡ notes.old.items ++ remark_of (forget_line tag)) }
{
    let mut line = Line::new();
    put_word(&mut line, b"forget\n");
    line.byte(b' ');
    line.number(tag.number);
    line.byte(b' ');
    line.number(tag.key);
    put_remark(line.as_bytes(), notes)
}

impl Keys {
    /// Adds the lines of all keys, and says how many they are.
    pub(crate) fn put(&self, text: &mut Vec<u8>) -> Result<u64, AllocError>
        ensures lines { OnOk result (text.new.items
            ≡ text.old.items ++ joined_lines (key_lines self.now)) }
        ensures count { IfOk result (λ n. n ≡ length self.now) }
        ensures few { IfOk result (λ n. n < 2 ^ 63) }
    {
        match put_keys(&self.told, text) {
            Ok(()) => Ok(self.told.len() as u64),
            Err(AllocError) => Err(AllocError),
        }
    }

    /// Adds the remarks of the lines of all keys.
    pub(crate) fn note(&self, text: &mut Vec<u8>) -> Result<(), AllocError>
        ensures { OnOk result (text.new.items
            ≡ text.old.items ++ remarks_of (key_lines self.now)) }
    {
        note_keys(self.alloc, &self.told, text)
    }

    /// No key.
    pub(crate) fn new(alloc: Global) -> Keys
        ensures { result ≡ [] }
    {
        Keys {
            alloc,
            told: BTreeMap::new(alloc),
        }
    }

    /// Whether a number is new, or the last of its key, or one before it.
    pub(crate) fn turn(&self, tag: Tag) -> Turn
        ensures { result ≡ turn_after (last_of self.now tag.key) tag.number }
    {
        match self.told.get(&tag.key) {
            None => Turn::Fresh,
            Some(told) => turn_by(tag.number, told.number),
        }
    }

    /// Adds the first line of a key's last answer to a text.
    pub(crate) fn tell_again(&self, key: u64, text: &mut Vec<u8>) -> Result<(), AllocError>
        ensures ok { OnOk result (text.new.items
            ≡ text.old.items ++ first_of (told_of self.now key)) }
    {
        match self.told.get(&key) {
            None => Ok(()),
            Some(told) => text.extend_from_slice(&told.first),
        }
    }

    /// Keeps this number as the last of its key, with this first line, and notes it.
    pub(crate) fn keep(
        &mut self,
        tag: Tag,
        first: &[u8],
        notes: &mut Vec<u8>,
    ) -> Result<(), AllocError>
        ensures ok { OnOk result ((self.new ≡ with_told self.old tag.key tag.number first.now)
            × (notes.new.items ≡ notes.old.items ++ remark_of (kept_line tag first.now))) }
    {
        match note_key(self.alloc, tag, first, notes) {
            Ok(()) => self.insert(tag, first),
            Err(AllocError) => Err(AllocError),
        }
    }

    fn insert(&mut self, tag: Tag, first: &[u8]) -> Result<(), AllocError>
        ensures ok { OnOk result (self.new ≡ with_told self.old tag.key tag.number first.now) }
    {
        let mut kept = Vec::new(self.alloc);
        kept.extend_from_slice(first)?;
        let told = Told {
            number: tag.number,
            first: kept,
        };
        match self.told.insert(tag.key, told) {
            Ok(_) => Ok(()),
            Err(_) => Err(AllocError),
        }
    }

    /// Keeps nothing of a key whose last number is this one, and notes it.
    pub(crate) fn forget(&mut self, tag: Tag, notes: &mut Vec<u8>) -> Result<(), AllocError>
        ensures ok { OnOk result ((self.new
            ≡ forgotten_if (turn_after (last_of self.old tag.key) tag.number) self.old tag.key)
            × (notes.new.items ≡ notes.old.items
            ++ forget_note (turn_after (last_of self.old tag.key) tag.number) tag)) }
    {
        match self.turn(tag) {
            Turn::Again => self.remove(tag, notes),
            Turn::Fresh | Turn::Past { .. } => Ok(()),
        }
    }

    fn remove(&mut self, tag: Tag, notes: &mut Vec<u8>) -> Result<(), AllocError>
        ensures ok { OnOk result ((self.new ≡ without self.old tag.key)
            × (notes.new.items ≡ notes.old.items ++ remark_of (forget_line tag))) }
    {
        self.told.remove(&tag.key);
        note_forgotten(tag, notes)
    }

    /// The same keys.
    pub(crate) fn same(&self) -> Result<Keys, AllocError>
        ensures { IfOk result (λ k. k ≡ self.now) }
    {
        let told = self.told.clone()?;
        Ok(Keys {
            alloc: self.alloc,
            told,
        })
    }
}
