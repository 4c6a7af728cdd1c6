//! A case: a script with what it prints.

use super::again::run_again;
use super::between::{Named, push_line};
use super::said::push_said;
use case_lines::{Nothing, Seeded};
use gate_lines::{Flags, audit_script, run_script, run_script_with};
use std::alloc::{AllocError, Global};
use std::hash::BuildHasher;

/// What is done with a script.
#[derive(Clone, Copy, PartialEq)]
enum Task {
    /// It is run, in each way.
    Run,
    /// It is run, and is too long for keys that all collide, and for lines of others between its own.
    RunLong,
    /// It is audited.
    Audit,
}

/// A script, and what it has to print and to tell.
pub struct Case {
    name: Vec<u8>,
    script: Vec<u8>,
    /// What the script has to print.
    wanted: Vec<u8>,
    /// What has to end it, where it isn't its own end.
    told: Vec<u8>,
    flags: Flags,
    task: Task,
    /// Whether each line so far was one of a case, and each single line that isn't to be understood wasn't.
    is_right: bool,
}

/// Written by hand, so that one call drops all.
impl Drop for Case {
    fn drop(self) {
        let Case {
            name: _,
            script: _,
            wanted: _,
            told: _,
            flags: _,
            task: _,
            is_right: _,
        } = self;
    }
}

impl Case {
    /// No case yet. Takes no memory.
    pub fn new(alloc: Global) -> Case {
        Case {
            name: Vec::new(alloc),
            script: Vec::new(alloc),
            wanted: Vec::new(alloc),
            told: Vec::new(alloc),
            flags: Flags {
                num: false,
                raw: false,
                cold: false,
            },
            task: Task::Run,
            is_right: true,
        }
    }

    /// The case is of this name.
    pub fn begin(&mut self, name: &str) -> Result<(), AllocError> {
        self.name.extend_from_slice(name.as_bytes())
    }

    /// A case of this name: a script, and what it has to print.
    pub fn whole(
        alloc: Global,
        name: &str,
        script: Vec<u8>,
        wanted: Vec<u8>,
    ) -> Result<Case, AllocError> {
        let mut case = Case::new(alloc);
        case.begin(name)?;
        case.script = script;
        case.wanted = wanted;
        Ok(case)
    }

    /// Takes a line of the case.
    pub fn take(&mut self, alloc: Global, line: &[u8]) -> Result<(), AllocError> {
        if let Some(text) = line.strip_prefix(b"-> ") {
            return push_said(&mut self.wanted, text);
        }
        if let Some(text) = line.strip_prefix(b"!! ") {
            return push_line(&mut self.told, text);
        }
        if let Some(text) = line.strip_prefix(b"?? ") {
            let told = b"line 1: not understood\n";
            self.is_right = self.is_right && has_run(alloc, self.flags, false, text, b"", told);
            return Ok(());
        }
        if let Some(text) = line.strip_prefix(b"-- ") {
            self.flag(text);
            return Ok(());
        }
        push_said(&mut self.script, line)
    }

    /// Takes the name of a flag, or of what is done. A name of none makes the case wrong.
    fn flag(&mut self, name: &[u8]) {
        if name == b"num".as_slice() {
            self.flags.num = true;
        } else if name == b"raw".as_slice() {
            self.flags.raw = true;
        } else if name == b"cold".as_slice() {
            self.flags.cold = true;
        } else if name == b"long".as_slice() {
            self.task = Task::RunLong;
        } else if name == b"audit".as_slice() {
            self.task = Task::Audit;
        } else {
            self.is_right = false;
        }
    }

    /// Ends the case, and says whether all was as it is to be; also with each step undone and made again, and with
    /// lines of others between, where that is asked for.
    pub fn end(
        &self,
        alloc: Global,
        is_mixed: bool,
        shown: &mut Vec<u8>,
    ) -> Result<(), AllocError> {
        if self.name.is_empty() {
            return Ok(());
        }
        let is_right = self.has_passed(alloc, is_mixed)?;
        shown.extend_from_slice(self.name.as_slice())?;
        shown.extend_from_slice(if is_right {
            b": right\n".as_slice()
        } else {
            b": WRONG\n".as_slice()
        })
    }

    /// Whether all was as it is to be.
    fn has_passed(&self, alloc: Global, is_mixed: bool) -> Result<bool, AllocError> {
        if !self.is_right || !self.has_come(alloc) {
            return Ok(false);
        }
        let is_mixed = is_mixed && self.task == Task::Run;
        Ok(!is_mixed || self.is_same_again(alloc) && self.is_apart(alloc)?)
    }

    /// Whether the script, or its audit, prints what it has to, and ends as it is to.
    fn has_come(&self, alloc: Global) -> bool {
        let (script, wanted) = (self.script.as_slice(), self.wanted.as_slice());
        let told = self.told.as_slice();
        match self.task {
            Task::Run => has_run(alloc, self.flags, false, script, wanted, told),
            Task::RunLong => has_run(alloc, self.flags, true, script, wanted, told),
            Task::Audit => is_audited(alloc, script, wanted, told),
        }
    }

    /// Whether it prints the same with each step undone and made again. A script that ends at a line that isn't
    /// understood, or in which nobody is logged on before, is left as it is.
    fn is_same_again(&self, alloc: Global) -> bool {
        if self.flags.cold || !self.told.is_empty() {
            return true;
        }
        let mut input = self.script.as_slice();
        let mut output = Vec::new(alloc);
        run_again(alloc, self.flags, &mut input, &mut output).is_ok() && output == self.wanted
    }

    /// Whether, with lines of others between, its own lines print the same, and those of the others what they print
    /// without them. A script that ends at a line that isn't understood is left as it is.
    fn is_apart(&self, alloc: Global) -> Result<bool, AllocError> {
        if !self.told.is_empty() {
            return Ok(true);
        }
        let script = self.script.as_slice();
        let named = Named::in_script(script);
        let mixed = self.printed(alloc, named.mixed(alloc, script, true)?.as_slice())?;
        let others = self.printed(alloc, named.mixed(alloc, script, false)?.as_slice())?;
        Ok(
            named.part(alloc, mixed.as_slice(), false)? == self.wanted
                && named.part(alloc, mixed.as_slice(), true)? == others,
        )
    }

    /// What a script prints; a line of its own behind it where it doesn't come to its end.
    fn printed(&self, alloc: Global, script: &[u8]) -> Result<Vec<u8>, AllocError> {
        let mut input = script;
        let mut output = Vec::new(alloc);
        let mut faults = Vec::new(alloc);
        let status = run_script(alloc, self.flags, &mut input, &mut output, &mut faults);
        if status != 0 {
            push_line(&mut output, b"no end")?;
        }
        Ok(output)
    }
}

/// Whether the audit of a script prints this and ends as it is to.
fn is_audited(alloc: Global, script: &[u8], wanted: &[u8], told: &[u8]) -> bool {
    let mut input = script;
    let mut output = Vec::new(alloc);
    let mut faults = Vec::new(alloc);
    let status = audit_script(alloc, &mut input, &mut output, &mut faults);
    has_ended(status, &output, &faults, wanted, told)
}

/// Whether a script prints this and ends as it is to, with the fixed seed, with two others, and, where it isn't long,
/// with a hasher that answers 0 for everything.
fn has_run(
    alloc: Global,
    flags: Flags,
    is_long: bool,
    script: &[u8],
    wanted: &[u8],
    told: &[u8],
) -> bool {
    let mut input = script;
    let mut output = Vec::new(alloc);
    let mut faults = Vec::new(alloc);
    let status = run_script(alloc, flags, &mut input, &mut output, &mut faults);
    has_ended(status, &output, &faults, wanted, told)
        && has_run_with(alloc, Seeded::of(1), flags, script, wanted, told)
        && has_run_with(alloc, Seeded::of(2), flags, script, wanted, told)
        && (is_long || has_run_with(alloc, Nothing, flags, script, wanted, told))
}

/// The same with a hasher.
fn has_run_with<S: BuildHasher + Clone + Drop>(
    alloc: Global,
    hasher: S,
    flags: Flags,
    script: &[u8],
    wanted: &[u8],
    told: &[u8],
) -> bool {
    let mut input = script;
    let mut output = Vec::new(alloc);
    let mut faults = Vec::new(alloc);
    let status = run_script_with(alloc, hasher, flags, &mut input, &mut output, &mut faults);
    has_ended(status, &output, &faults, wanted, told)
}

/// Whether what was printed is this, and the end is a script's own, or that of a line that isn't understood where that
/// is told.
fn has_ended(status: u8, output: &[u8], faults: &[u8], wanted: &[u8], told: &[u8]) -> bool {
    let ends = if told.is_empty() { 0 } else { 2 };
    status == ends && output == wanted && faults == told
}
