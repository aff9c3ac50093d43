//! Laws of what C saves and opens. Each is the contract of a function that does nothing; the statements are in
//! `specs/Trips.antt`.

ghost use Rattle.c_calls.specs.Trips.{SavesComeBack, FilesComeBack};

/// What `wozgirt_open_saved` opens from what `wozgirt_save` wrote is the same ring.
pub fn saves_come_back()
    ensures { SavesComeBack }
{}

/// What `wozgirt_open_segment` opens from what `wozgirt_open_journal` or `wozgirt_cut` wrote is the same ring, in the same file.
pub fn files_come_back()
    ensures { FilesComeBack }
{}
