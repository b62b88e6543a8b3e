// A file is written whole or not at all. It is made in a folder of the process's own beside its name and
// brought to the disk; then the folder takes the name `.remi-claim`, which one process at a time can hold,
// and while it does so the name of the output is looked at and the file takes it.
ghost use Rattle.std.specs.Prelude.{◌≡◌};
ghost use Rattle.files.specs.Saving.{is_input, hindrance, number_of};

use crate::paths::{Name, Path};
use crate::{Inputs, STDOUT_FILENO, Trouble, calls, paths, said};
use file_facts::Facts;
use std::fs::{OpenFile, Permissions};
use std::io::{ErrorKind, Print, Write};
use std::os::fd::AsFd;
use std::os::unix::fs::{PermissionsExt, fchown};
use std::random::RandomSource;
use std::rt::{Clock, Files};
use std::{io, thread};

// What stands against writing a file: it is one of those that are read; it is there and is no regular file; it is
// there, and is not to be written over.
#[derive(Clone, Copy, PartialEq, Eq, Debug)]
pub enum Hindrance {
    ReadToo,
    NotRegular,
    Taken,
}

// The name of the folder that one process at a time can hold.
const CLAIM: &[u8] = b".remi-claim";

// How often a process asks for it at the most.
const ASKED: usize = 10_000_000;

// How many names of its own a process tries.
const OWN_NAMES: usize = 1000;

// A file is one of those that are read.
fn is_input(file: Option<Facts>, inputs: Inputs) -> bool
    ensures { result ≡ is_input file inputs }
{
    file_facts::same_file(file, inputs.first)
        | file_facts::same_file(file, inputs.second)
        | file_facts::same_file(file, inputs.table)
}

// What stands against writing a file.
fn hindrance_of(file: Option<Facts>, inputs: Inputs, over: bool) -> Option<Hindrance>
    ensures { number_of result ≡ hindrance file inputs over }
{
    if file.is_none() {
        return None;
    }
    if is_input(file, inputs) {
        return Some(Hindrance::ReadToo);
    }
    if !file_facts::is_regular(file) {
        return Some(Hindrance::NotRegular);
    }
    if over {
        return None;
    }
    Some(Hindrance::Taken)
}

// Nothing stands against writing a file; else that is said.
fn check_free(name: &[u8], file: Option<Facts>, inputs: Inputs, over: bool) -> Result<(), Trouble> {
    match hindrance_of(file, inputs, over) {
        None => Ok(()),
        Some(hindrance) => Err(said::left(name, hindrance)),
    }
}

// A look at a name found that there is no file.
fn is_missing(error: io::Error) -> bool {
    matches!(error.kind(), ErrorKind::NotFound | ErrorKind::NotADirectory)
}

// What has a name, if only that nothing has it; where that cannot be known, it is said.
fn known(rt: &impl Files, name: &[u8]) -> Result<Option<Facts>, Trouble> {
    match calls::look(rt, name) {
        Ok(file) => Ok(Some(file)),
        Err(error) if is_missing(error) => Ok(file_facts::unknown()),
        Err(error) => Err(said::cannot_write(name, error)),
    }
}

// Writes to standard output, unless that is a file which is read.
fn to_standard_output(
    rt: &(impl Files + Print),
    content: &[u8],
    inputs: Inputs,
) -> Result<(), Trouble> {
    let file = file_facts::of_descriptor(rt, STDOUT_FILENO).map_err(|error| said::cannot_write(
        b"-", error,
    ))?;
    if file_facts::is_regular(Some(file)) {
        check_free(b"-", Some(file), inputs, true)?;
    }
    crate::tell(rt, STDOUT_FILENO, content)
}

// Another name may be free, or the call was interrupted.
fn is_to_be_tried_again(error: io::Error) -> bool {
    matches!(
        error.kind(),
        ErrorKind::AlreadyExists | ErrorKind::Interrupted
    )
}

// Makes a folder of a name within a folder.
fn make_folder(rt: &impl Files, folder: &[u8], name: Name) -> io::Result<Name> {
    file_facts::make_folder(rt, paths::within(folder, name.as_slice(), b"").as_slice())?;
    Ok(name)
}

// Makes a folder of a name that is free. The name.
fn make_own(rt: &(impl Files + RandomSource), folder: &[u8]) -> io::Result<Name> {
    for _ in 1..OWN_NAMES {
        match make_folder(rt, folder, paths::own(rt)) {
            Err(error) if is_to_be_tried_again(error) => {}
            answer => return answer,
        }
    }
    make_folder(rt, folder, paths::own(rt))
}

// Gives a file a mode.
fn set_mode(file: &impl OpenFile, mode: u32) -> io::Result<()> {
    file.set_permissions(Permissions::from_mode(mode))
}

// Gives a new file the mode of the one whose place it takes, without the bits that lend its owner.
fn keep_mode(file: &impl OpenFile, old: Facts) -> io::Result<()> {
    set_mode(file, file_facts::kept_mode(old) % 512)
}

// Gives a new file the owner of the one whose place it takes, and all bits of its mode; where the owner cannot
// be kept, the group; where that cannot be either, the group may do nothing.
fn keep_owner(file: &(impl OpenFile + AsFd), old: Facts) -> io::Result<()> {
    let mode = file_facts::kept_mode(old);
    if fchown(file, Some(old.owner), Some(old.group)).is_ok() {
        return set_mode(file, mode);
    }
    if fchown(file, None, Some(old.group)).is_ok() {
        return Ok(());
    }
    set_mode(file, mode % 512 / 64 * 64 + mode % 8)
}

// Fills a new file, gives it mode and owner of the one whose place it takes, and brings it to the disk.
fn fill(
    file: &mut (impl Write + OpenFile + AsFd),
    content: &[u8],
    old: Option<Facts>,
) -> io::Result<()> {
    file.write_all(content)?;
    if let Some(old) = old {
        keep_mode(file, old)?;
        keep_owner(file, old)?;
    }
    file.sync_all()
}

// Another process holds the claim, as a folder with something in it is not replaced; or the call was
// interrupted.
fn is_held(error: io::Error) -> bool {
    error.kind() == ErrorKind::DirectoryNotEmpty || is_to_be_tried_again(error)
}

// The clock's second.
fn second(rt: &impl Clock) -> u64 {
    match rt.since_1970() {
        Ok(time) => time.as_secs(),
        Err(_) => 0,
    }
}

// Opens the folder that an output lies in.
fn open_folder<R: Files>(rt: &R, folder: &[u8]) -> io::Result<R::File> {
    calls::open(rt, if folder.is_empty() { b"." } else { folder })
}

// A file that is written: its name, the folder that it lies in, the name of the process's own folder in that and of
// the file in it, whether it may be written over, and the files that are read.
#[derive(Drop)]
struct Output<'a, R> {
    rt: &'a R,
    name: &'a [u8],
    folder: &'a [u8],
    own: &'a [u8],
    over: bool,
    inputs: Inputs,
}

impl<R: Files + Clock + RandomSource> Output<'_, R> {
    // A name within the folder, and one within that where it is not empty.
    fn path(&self, holder: &[u8], inner: &[u8]) -> Path {
        paths::within(self.folder, holder, inner)
    }

    // The file cannot be written, which is said.
    fn cannot(&self, error: io::Error) -> Trouble {
        said::cannot_write(self.name, error)
    }

    // Removes a folder beside the output and the file in it.
    fn remove(&self, holder: &[u8], own: &[u8]) {
        let _ = calls::unlink(self.rt, self.path(holder, own).as_slice());
        let _ = calls::rmdir(self.rt, self.path(holder, b"").as_slice());
    }

    // Makes the file in the process's own folder, and brings it to the disk.
    fn make(&self, content: &[u8], old: Option<Facts>) -> Result<(), Trouble>
    where
        R::File: AsFd,
    {
        let path = self.path(self.own, self.own);
        calls::create(self.rt, path.as_slice())
            .and_then(|mut file| fill(&mut file, content, old))
            .map_err(|error| self.cannot(error))
    }

    // Moves a claim aside that does not go, to a name of the process's own.
    fn move_aside(&self, claim: &[u8]) {
        if let Ok(own) = make_own(self.rt, self.folder) {
            let own = own.as_slice();
            let (from, to) = (self.path(claim, b""), self.path(own, b""));
            if calls::rename(self.rt, from.as_slice(), to.as_slice()).is_err() {
                self.remove(own, b"");
            }
        }
    }

    // Makes the process's own folder the claim. One that does not go is moved aside when the clock's second
    // changes for the second time, which is after one second to two.
    fn take(&self, claim: &[u8]) -> io::Result<()> {
        let (from, to) = (self.path(self.own, b""), self.path(claim, b""));
        let mut last = second(self.rt);
        let mut waited = false;
        for _ in 1..ASKED {
            match calls::rename(self.rt, from.as_slice(), to.as_slice()) {
                Err(error) if is_held(error) => {}
                answer => return answer,
            }
            let now = second(self.rt);
            if now != last {
                if waited {
                    self.move_aside(claim);
                }
                waited = !waited;
                last = now;
            }
            thread::yield_now();
        }
        calls::rename(self.rt, from.as_slice(), to.as_slice())
    }

    // Makes the process's own folder the claim that no other user takes, by the number of the user to whom the folder
    // belongs. The claim's name.
    fn take_own_claim(&self) -> io::Result<Name> {
        let user = calls::look(self.rt, self.path(self.own, b"").as_slice())?.owner;
        let claim = paths::own_claim(user);
        self.take(claim.as_slice())?;
        Ok(claim)
    }

    // Gives the file in a folder its name. If another process has moved the folder aside, that is said.
    fn give_name(&self, holder: &[u8]) -> Result<(), Trouble> {
        let path = self.path(holder, self.own);
        calls::rename(self.rt, path.as_slice(), self.name).map_err(|error| {
            if file_facts::of_name(self.rt, path.as_slice()).is_ok() {
                self.cannot(error)
            } else {
                said::overtaken(self.name)
            }
        })
    }

    // Gives it its name, if nothing stands against that.
    fn give_free_name(&self, holder: &[u8]) -> Result<(), Trouble> {
        let file = known(self.rt, self.name)?;
        check_free(self.name, file, self.inputs, self.over)?;
        self.give_name(holder)
    }

    // Brings the folder to the disk, if it can be opened and its disk can do that.
    fn sync_folder(&self) -> Result<(), Trouble> {
        let Ok(file) = open_folder(self.rt, self.folder) else {
            return Ok(());
        };
        match file.sync_all() {
            Err(error) if error.kind() != ErrorKind::InvalidInput => {
                Err(said::cannot_bring(self.name, error))
            }
            _ => Ok(()),
        }
    }

    // Gives the file that was made its name, from the folder that holds it, which is then removed.
    fn place_from(&self, holder: &[u8]) -> Result<(), Trouble> {
        let done = self.give_free_name(holder);
        self.remove(holder, self.own);
        done?;
        self.sync_folder()
    }

    // The same, with the claim; where that is another user's, in a folder in which only its owner may move it,
    // with one that no other user takes.
    fn place(&self) -> Result<(), Trouble> {
        if self.take(CLAIM).is_ok() {
            return self.place_from(CLAIM);
        }
        match self.take_own_claim() {
            Ok(claim) => self.place_from(claim.as_slice()),
            Err(error) => {
                let trouble = self.cannot(error);
                self.remove(self.own, self.own);
                Err(trouble)
            }
        }
    }
}

// Writes a file: whole, or not at all.
pub fn save<R: Files + Clock + RandomSource + Print>(
    rt: &R,
    name: &[u8],
    content: &[u8],
    over: bool,
    inputs: Inputs,
) -> Result<(), Trouble>
where
    R::File: AsFd,
{
    if crate::is_standard(name) {
        return to_standard_output(rt, content, inputs);
    }
    let old = known(rt, name)?;
    check_free(name, old, inputs, over)?;
    let folder = paths::folder(name);
    let own = make_own(rt, folder).map_err(|error| said::cannot_write(name, error))?;
    let output = Output {
        rt,
        name,
        folder,
        own: own.as_slice(),
        over,
        inputs,
    };
    if let Err(trouble) = output.make(content, old) {
        output.remove(output.own, output.own);
        return Err(trouble);
    }
    output.place()
}
