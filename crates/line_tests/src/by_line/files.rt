//! Files that fail.

use super::served;
use disks::{Disk, FolderEntry};
use ring_service::{Journal, Permits, serve};
use std::alloc::Global;
use std::io::{self, Cursor, ErrorKind};

/// Files that can never be finished.
#[derive(Drop)]
pub(super) struct Stuck {
    pub(super) alloc: Global,
}

impl Disk for Stuck {
    type Reader = Cursor<Vec<u8>>;

    type New = Vec<u8>;

    type Grown = Vec<u8>;

    type Hold = ();

    fn open(&self, _name: &str) -> io::Result<Cursor<Vec<u8>>> {
        Err(io::Error::from(ErrorKind::NotFound))
    }

    fn is_one_file(&self, _one: &str, _other: &str) -> io::Result<bool> {
        Err(io::Error::from(ErrorKind::PermissionDenied))
    }

    fn leads_into(&self, _folder: &str, _name: &str) -> io::Result<bool> {
        Err(io::Error::from(ErrorKind::PermissionDenied))
    }

    fn list(&self, _folder: &str) -> io::Result<Vec<FolderEntry>> {
        Err(io::Error::from(ErrorKind::PermissionDenied))
    }

    fn make(&mut self, _name: &str) -> io::Result<Vec<u8>> {
        Ok(Vec::new(self.alloc))
    }

    fn finish(&mut self, _made: Vec<u8>, _name: &str) -> io::Result<()> {
        Err(io::Error::from(ErrorKind::PermissionDenied))
    }

    fn create(&mut self, _name: &str) -> io::Result<bool> {
        Err(io::Error::from(ErrorKind::PermissionDenied))
    }

    fn discard(&mut self, _name: &str) -> io::Result<bool> {
        Err(io::Error::from(ErrorKind::PermissionDenied))
    }

    fn lock(&mut self, _name: &str) -> io::Result<()> {
        Err(io::Error::from(ErrorKind::PermissionDenied))
    }

    fn hold(&mut self, _name: &str) -> io::Result<()> {
        Err(io::Error::from(ErrorKind::PermissionDenied))
    }

    fn grow(&mut self, _name: &str, _synced: bool) -> io::Result<Vec<u8>> {
        Err(io::Error::from(ErrorKind::PermissionDenied))
    }

    fn close_synced(&mut self, grown: Vec<u8>, _name: &str) -> Result<(), Vec<u8>> {
        Err(grown)
    }

    fn abandon(&mut self, _grown: Vec<u8>, _name: String) {}
}

#[test]
fn a_file_that_cannot_be_finished_is_a_refusal(rt: HostRuntime) {
    let alloc = rt.alloc();
    let mut served = served(&rt, alloc);
    let mut disk = Stuck { alloc };
    let mut input: &[u8] = b"pass 0 0 0 5\nsave x\npass 0 0 2 4\n";
    let mut out = Vec::new(alloc);
    let mut journal = Some(Journal {
        name: "j",
        writer: Vec::new(alloc),
    });
    let permits = Permits {
        faults: false,
        saves: Some("folder"),
        history: None,
        strict: false,
    };
    let ended = serve(
        alloc,
        &mut served,
        &mut disk,
        &mut journal,
        permits,
        &mut input,
        &mut out,
    );
    assert!(&rt; ended == Ok(()));
    assert!(&rt; out.as_slice() == b"granted 1 5\nrefused file\ngranted 2 9\n".as_slice());
}
