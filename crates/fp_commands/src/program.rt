//! The program: its words, its files, its streams and its status.

ghost use Rattle.std.specs.Prelude.{◌≡◌, ◌<◌, ◌≤◌, ◌^◌, ◌↔◌, Ok, Err, None, IfSome, OnOk};
ghost use Rattle.std.specs.Prelude.{map, option_map, string_bytes};
ghost use Rattle.fp_files.specs.declared.openings.Purpose.TheVariants.{Making, Reading, Writing};
ghost use Rattle.fp_commands.specs.Files.{AppliesInMemory, AppliesToDisk, EvaluatesOnDisk};
ghost use Rattle.fp_commands.specs.Files.{ImportsToDisk, MakesDisk, OnFile, Performs, ShowsDisk};
ghost use Rattle.fp_commands.specs.Task.{NoneFailed, TellsFault, WritesLine, over_file};
ghost use Rattle.fp_commands.specs.Task.{task_of_words, task_seen, usage};

use crate::disk::{apply_disk, import_disk, init_disk, show_disk};
use crate::ending::status_of;
use crate::eval::eval_disk;
use crate::fault::CommandFault;
use fp_edit::FlagSet;
use fp_files::DiskFiles;
use fp_session::apply_lines;
use fp_streams::FailureCounted;
use std::alloc::Global;
use std::io::{Read, Write};

const USAGE: &str =
    "usage: flagplane init FILE | apply [FILE] | show FILE | eval FILE KEY | import FILE | serve FILE OFREP EDIT STREAM | watch ADDR";

/// The most bytes of the image of flags that are kept in memory.
pub const IMAGE_LIMIT: u64 = 0x80_0000;

// What there is to do; all but the first are over the file at a path.
#[derive(Debug, Drop)]
enum Task<'w> {
    Apply,
    Init(&'w str),
    ApplyFile(&'w str),
    Show(&'w str),
    Import(&'w str),
    Eval { path: &'w str, key: &'w str },
}

/// Runs the command that the words name, over files and streams, and answers the program's status:
/// 0 where it was done, 1 where a fault ended it, which `e` is told, and 2 where the words name no
/// command, where `e` is told the usage. Over a file it does what `init_disk`, `show_disk`,
/// `eval_disk`, `apply_disk` and `import_disk` promise, and `apply` without a file answers its
/// input over no flags in memory.
///
/// It takes no memory to tell. Words are looked at first, then the file is opened, then the input
/// is read. No file is opened but the one that the words name, and that once: with its lock where
/// it may be changed, and else for reading alone. The moment is in seconds since 1970.
pub fn command<F, R, W, E>(
    alloc: Global,
    files: &mut F,
    words: &[String],
    r: &mut FailureCounted<R>,
    w: &mut FailureCounted<W>,
    e: &mut FailureCounted<E>,
    now: u64,
) -> u8
where
    F: DiskFiles,
    R: Read,
    W: Write,
    E: Write,
    // The moment is below 2^63.
    requires { now < 2 ^ 63 }
    // The status is 2 exactly where the words name no command.
    ensures usage { (result ≡ 2) ↔ (task_of_words (map string_bytes words.now) ≡ None) }
    // At 2 the usage is told, unless the error stream failed.
    ensures helps { result ≡ 2 → WritesLine E.contents e.old e.new usage }
    // At 2 nothing is opened, read or written.
    ensures untouched { result ≡ 2
        → (files.new ≡ files.old) × (r.new ≡ r.old) × (w.new ≡ w.old) }
    // At 0, `apply`: a run over the input from no flags was written, and no file was opened. Over a
    // file: it alone was opened, once, by `init`, `apply` and `import` to be written, which wants
    // its lock, by `show` and `eval` for reading alone; of the disk found there all holds that its
    // call promises at `Ok`. H: that disk stands at its path now. All other paths are as before.
    ensures done { result ≡ 0 → IfSome (task_of_words (map string_bytes words.now)) (λ task.
        Performs F.DiskFiles F.Disk.Disk R.remaining W.contents
        (record { files = files.old; reader = r.old; writer = w.old })
        (record { files = files.new; reader = r.new; writer = w.new })
        task now (Ok tt)) }
    // At 0 neither the reader nor the writer failed.
    ensures no_failure { result ≡ 0 → NoneFailed r.old r.new w.old w.new }
    // At 0 nothing was told.
    ensures quiet { result ≡ 0 → e.new ≡ e.old }
    // At 1 a fault is told by its text, unless the error stream failed. `apply`: `Memory`, or
    // `Device` only where the reader or the writer failed; no file was opened; what was written is
    // as `told` of `apply_disk` has it. Over a file: it wasn't opened, which was counted, the fault
    // is `Device`, and nothing was read or written; or it alone was opened, once, and this fault
    // ended the work on its disk, with all that its call promises then. Either way it was asked for
    // with the same purpose as at 0.
    ensures ends { result ≡ 1 → IfSome (task_of_words (map string_bytes words.now)) (λ task.
        TellsFault E.contents e.old e.new (λ fault.
        Performs F.DiskFiles F.Disk.Disk R.remaining W.contents
        (record { files = files.old; reader = r.old; writer = w.old })
        (record { files = files.new; reader = r.new; writer = w.new })
        task now (Err fault))) }
    // The status is at most 2.
    ensures small { result ≤ 2 }
{
    let Some(task) = task_of(words) else {
        let _ = e.say(&USAGE);
        return 2;
    };
    let outcome = perform(alloc, files, task, now, r, w);
    status_of(e, outcome)
}

fn task_of(words: &[String]) -> Option<Task<'_>>
    ensures { option_map task_seen result ≡ task_of_words (map string_bytes words.now) }
{
    match words {
        [word] if word.as_str() == "apply" => Some(Task::Apply),
        [word, path] => task_over_file(word.as_str(), path.as_str()),
        [word, path, key] if word.as_str() == "eval" && !key.is_empty() => {
            Some(Task::Eval {
                path: path.as_str(),
                key: key.as_str(),
            })
        }
        _ => None,
    }
}

fn task_over_file<'w>(word: &str, path: &'w str) -> Option<Task<'w>>
    ensures { option_map task_seen result ≡ over_file word.now path.now }
{
    match word {
        "init" => Some(Task::Init(path)),
        "apply" => Some(Task::ApplyFile(path)),
        "show" => Some(Task::Show(path)),
        "import" => Some(Task::Import(path)),
        _ => None,
    }
}

fn perform<F: DiskFiles, R: Read, W: Write>(
    alloc: Global,
    files: &mut F,
    task: Task,
    now: u64,
    r: &mut FailureCounted<R>,
    w: &mut FailureCounted<W>,
) -> Result<(), CommandFault>
    requires { now < 2 ^ 63 }
    ensures performs { Performs F.DiskFiles F.Disk.Disk R.remaining W.contents
        (record { files = files.old; reader = r.old; writer = w.old })
        (record { files = files.new; reader = r.new; writer = w.new })
        (task_seen task.entry) now result }
    ensures no_failure { OnOk result (NoneFailed r.old r.new w.old w.new) }
{
    match task {
        Task::Apply => apply(alloc, r, w),
        Task::Init(path) => init_file(alloc, files, path, r, w),
        Task::ApplyFile(path) => apply_file(alloc, files, path, r, w),
        Task::Show(path) => show_file(alloc, files, path, r, w),
        Task::Import(path) => import_file(alloc, files, path, r, w),
        Task::Eval { path, key } => eval_file(alloc, files, path, key, now, r, w),
    }
}

// Answers the input's lines over flags that are kept in memory alone.
fn apply<R: Read, W: Write>(
    alloc: Global,
    r: &mut FailureCounted<R>,
    w: &mut FailureCounted<W>,
) -> Result<(), CommandFault>
    ensures applies { AppliesInMemory R.remaining W.contents r.old r.new w.old w.new result }
    ensures no_failure { OnOk result (NoneFailed r.old r.new w.old w.new) }
{
    let (_flags, outcome) = apply_lines(alloc, r, w, FlagSet::new(alloc, IMAGE_LIMIT));
    let _told = outcome?;
    Ok(())
}

// Makes the file a disk of no flags. Neither stream is used.
fn init_file<F: DiskFiles, R: Read, W: Write>(
    alloc: Global,
    files: &mut F,
    path: &str,
    _r: &FailureCounted<R>,
    _w: &FailureCounted<W>,
) -> Result<(), CommandFault>
    ensures { OnFile F.DiskFiles F.Disk.Disk
        (record { files = files.old; reader = _r.now; writer = _w.now })
        (record { files = files.new; reader = _r.now; writer = _w.now })
        path.now Making (MakesDisk F.Disk.Disk) result }
{
    let disk = files.create(path)?;
    let (disk, outcome) = init_disk(alloc, disk);
    files.close(path, disk);
    outcome
}

// Answers the input's lines over what the file stands for.
fn apply_file<F: DiskFiles, R: Read, W: Write>(
    alloc: Global,
    files: &mut F,
    path: &str,
    r: &mut FailureCounted<R>,
    w: &mut FailureCounted<W>,
) -> Result<(), CommandFault>
    ensures performs { OnFile F.DiskFiles F.Disk.Disk
        (record { files = files.old; reader = r.old; writer = w.old })
        (record { files = files.new; reader = r.new; writer = w.new })
        path.now Writing (AppliesToDisk F.Disk.Disk R.remaining W.contents) result }
    ensures no_failure { OnOk result (NoneFailed r.old r.new w.old w.new) }
{
    let disk = files.open(path)?;
    let (disk, outcome) = apply_disk(alloc, r, w, disk);
    files.close(path, disk);
    let _told = outcome?;
    Ok(())
}

// Shows what the file stands for. The reader isn't used.
fn show_file<F: DiskFiles, R: Read, W: Write>(
    alloc: Global,
    files: &mut F,
    path: &str,
    _r: &FailureCounted<R>,
    w: &mut FailureCounted<W>,
) -> Result<(), CommandFault>
    ensures performs { OnFile F.DiskFiles F.Disk.Disk
        (record { files = files.old; reader = _r.now; writer = w.old })
        (record { files = files.new; reader = _r.now; writer = w.new })
        path.now Reading (ShowsDisk F.Disk.Disk W.contents) result }
    ensures no_failure { OnOk result (w.new.failures ≤ w.old.failures) }
{
    let disk = files.open_read_only(path)?;
    let (disk, outcome) = show_disk(alloc, w, disk);
    files.close(path, disk);
    outcome
}

// Puts the flags of the document that is read over what the file stands for.
fn import_file<F: DiskFiles, R: Read, W: Write>(
    alloc: Global,
    files: &mut F,
    path: &str,
    r: &mut FailureCounted<R>,
    w: &mut FailureCounted<W>,
) -> Result<(), CommandFault>
    ensures performs { OnFile F.DiskFiles F.Disk.Disk
        (record { files = files.old; reader = r.old; writer = w.old })
        (record { files = files.new; reader = r.new; writer = w.new })
        path.now Writing (ImportsToDisk F.Disk.Disk R.remaining W.contents) result }
    ensures no_failure { OnOk result (NoneFailed r.old r.new w.old w.new) }
{
    let disk = files.open(path)?;
    let (disk, outcome) = import_disk(alloc, r, w, disk);
    files.close(path, disk);
    let _told = outcome?;
    Ok(())
}

// Answers the request that is read for a flag of what the file stands for.
fn eval_file<F: DiskFiles, R: Read, W: Write>(
    alloc: Global,
    files: &mut F,
    path: &str,
    key: &str,
    now: u64,
    r: &mut FailureCounted<R>,
    w: &mut FailureCounted<W>,
) -> Result<(), CommandFault>
    requires { now < 2 ^ 63 }
    ensures performs { OnFile F.DiskFiles F.Disk.Disk
        (record { files = files.old; reader = r.old; writer = w.old })
        (record { files = files.new; reader = r.new; writer = w.new })
        path.now Reading
        (EvaluatesOnDisk F.Disk.Disk R.remaining W.contents key.now now) result }
    ensures no_failure { OnOk result (NoneFailed r.old r.new w.old w.new) }
{
    let disk = files.open_read_only(path)?;
    let (disk, outcome) = eval_disk(alloc, r, w, disk, key, now);
    files.close(path, disk);
    outcome
}
