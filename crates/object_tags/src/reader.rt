//! The modules of the lines so far.

ghost use Rattle.std.specs.Prelude.{◌≡◌, ◌<◌, ◌^◌, length, [], IsFalse, None, Some};
ghost use Rattle.object_laws.specs.Running as running;
ghost use Rattle.object_tags.specs.Answers.{Leaves, Gives, model_of_modules, model_of_open};
ghost use Rattle.object_tags.specs.Reads.{kept_of, TakesLine};
ghost use Rattle.object_tags.specs.SeenGroups.{model_of_found};

use crate::error::{Failure, TagError};
use crate::fields::all_blank;
use crate::group::FoundGroup;
use crate::groups::Groups;
use crate::open_module::OpenModule;
use crate::parts::Module;
use object_defs::{TagCause, TextForm};
use std::alloc::Global;

/// The modules that lines give so far.
#[derive(Drop)]
pub(crate) struct Reader {
    /// The modules that have ended.
    modules: Vec<Module>,
    /// The module that has not.
    current: Option<OpenModule>,
    /// The number of the last line that is not blank.
    last: u32,
}

impl Reader {
    /// What no lines give.
    pub(crate) fn new(alloc: Global) -> Reader
        ensures { kept_of result ≡ running.nothing_kept }
    {
        Reader {
            modules: Vec::new(alloc),
            current: None,
            last: 0,
        }
    }

    /// Takes a line.
    #[tactic(auto, unfolding(object_laws::specs::Running::kept_line))]
    pub(crate) fn take_line(
        &mut self,
        alloc: Global,
        form: TextForm,
        number: u32,
        line: &[u8],
    ) -> Result<(), TagError>
        requires { length line.now < 2 ^ 32 }
        ensures { TakesLine result (kept_of self.new)
            (running.kept_line form (kept_of self.old) (record { number = number; text = line.now })) }
    {
        if all_blank(line) {
            return Ok(());
        }
        self.last = number;
        match self.take_groups(alloc, form, line) {
            Ok(()) => Ok(()),
            Err(Failure::Cause(cause)) => Err(TagError::At {
                line: number,
                cause,
            }),
            Err(Failure::Memory) => Err(TagError::Memory),
        }
    }

    /// Takes the groups of a line.
    fn take_groups(&mut self, alloc: Global, form: TextForm, line: &[u8]) -> Result<(), Failure>
        requires { length line.now < 2 ^ 32 }
        ensures { Leaves result (kept_of self.new)
            (running.kept_groups (kept_of self.old) (running.groups_after form [] 0 line.now)) }
    {
        for found in Groups::new(form, line) {
            self.take_group(alloc, found)?;
        }
        Ok(())
    }

    /// Takes one more group.
    fn take_group(&mut self, alloc: Global, found: FoundGroup) -> Result<(), Failure>
        ensures { Leaves result (kept_of self.new) (running.kept_with (kept_of self.old) (model_of_found found)) }
    {
        match self.current.take() {
            None => self.begin(alloc, found),
            Some(module) if found.ends_module() => Ok(self.modules.push(module.found)?),
            Some(module) => self.go_on(module, found),
        }
    }

    /// Takes a group where no module has begun.
    fn begin(&mut self, alloc: Global, found: FoundGroup) -> Result<(), Failure>
        ensures { Leaves result (kept_of self.new) (running.kept_by None (kept_of self.old) (model_of_found found)) }
    {
        let module = OpenModule::begin(alloc, self.modules.len(), found)?;
        self.current = Some(module);
        Ok(())
    }

    /// Takes a group of a module that it does not end.
    fn go_on(&mut self, mut begun: OpenModule, found: FoundGroup) -> Result<(), Failure>
        requires { IsFalse (running.ends_module (model_of_found found)) }
        ensures { Leaves result (kept_of self.new)
            (running.kept_by (Some (model_of_open begun)) (kept_of self.old) (model_of_found found)) }
    {
        begun.take_group(found)?;
        self.current = Some(begun);
        Ok(())
    }

    /// The modules, or `NoEnd` where the last one has not ended.
    pub(crate) fn finish(self) -> Result<Vec<Module>, TagError>
        ensures { Gives (λ modules. model_of_modules modules.items) result
            (running.finished (kept_of self) (kept_of self).current) }
    {
        match self.current {
            None => Ok(self.modules),
            Some(_) => Err(TagError::At {
                line: self.last,
                cause: TagCause::NoEnd,
            }),
        }
    }
}
