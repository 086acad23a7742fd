//! The files that a job names, and what it does with each.

ghost use Rattle.std.specs.Prelude.{◌≡◌, ◌↔◌, ◌++◌, ◌∷◌, [], IfOk, IsTrue, OnOk, flat_map, map};
ghost use Rattle.std.specs.Prelude.{option_to_list};
ghost use Rattle.plan_answers.specs.Lent.{bytes_of};
ghost use Rattle.command_words.specs.Jobs.{Exclude, client_files, file, files_beside, files_read};
ghost use Rattle.command_words.specs.Jobs.{kept_files, port_files, file_uses as the_uses};

use crate::jobs::{Job, PortJob, SessionJob, SharedRack, TextJob};
use crate::role::{DisplayedRole, Role};
use crate::text::Text;
use std::alloc::{AllocError, Global};
use std::marker::Model;

/// What a job does with a file.
#[derive(Clone, Copy)]
pub enum Access {
    /// It reads it.
    Read,
    /// It writes a record or an image there.
    Write,
    /// It writes there what a client is told.
    Told,
    /// It sends a switch its commands there.
    Port,
}

impl Access {
    /// Whether files of these uses have to be two.
    pub fn excludes(self, other: Access) -> bool
        ensures { IsTrue result ↔ Exclude self other }
    {
        match (self, other) {
            (Access::Read, Access::Read) | (Access::Port, Access::Port) => false,
            _ => true,
        }
    }
}

/// The name of a file, and what a job does with it.
#[derive(Drop)]
pub struct FileUse {
    pub name: Text,
    pub access: Access,
    pub(crate) role: DisplayedRole,
}

impl FileUse {
    /// What it is used as.
    pub fn role(&self) -> Role {
        self.role.0
    }
}

/// The files of a job, as far as they are gathered.
#[derive(Drop)]
struct Gathered {
    alloc: Global,
    uses: Vec<FileUse>,
}

impl Model for Gathered {
    ghost use Rattle.std.specs.Prelude.{List};
    ghost use Rattle.command_words.specs.declared.uses.FileUse.{FileUse};

    ghost Value = { List FileUse };

    ghost view = { λ g. g.uses.items };
}

impl Gathered {
    /// A file of this name.
    fn push(&mut self, access: Access, role: Role, name: Text) -> Result<(), AllocError>
        ensures { OnOk result (self.new ≡ self.old ++ file access name ∷ []) }
    {
        let role = DisplayedRole(role);
        self.uses.push(FileUse { name, access, role })?;
        Ok(())
    }

    /// A file of this name, where there is one.
    fn add(&mut self, access: Access, role: Role, name: Option<&Text>) -> Result<(), AllocError>
        ensures { OnOk result
            (self.new ≡ self.old ++ map (file access) (option_to_list (bytes_of name.entry))) }
    {
        match name {
            Some(name) => self.push(access, role, Text::of(self.alloc, name.as_str())?),
            None => Ok(()),
        }
    }

    /// Scripts of these names.
    fn read_all(&mut self, names: &[Text]) -> Result<(), AllocError>
        ensures { OnOk result (self.new ≡ self.old ++ map (file Access.Read) names.now) }
    {
        for name in names {
            self.add(Access::Read, Role::Script, Some(name))?;
        }
        Ok(())
    }

    /// The files that a job reads itself, in their order.
    fn read_files(&mut self, job: &Job) -> Result<(), AllocError>
        ensures { OnOk result (self.new ≡ self.old ++ map (file Access.Read) (files_read job.now)) }
    {
        let files = job.files();
        self.add(Access::Read, Role::Image, files.image)?;
        self.add(Access::Read, files.list_role, files.list)?;
        let beside = match job {
            Job::Texts(TextJob::Apply { .. }) => Role::Image,
            _ => Role::Schedule,
        };
        self.add(Access::Read, beside, files.schedule)?;
        self.add(Access::Read, Role::Wiring, files.wiring)?;
        self.read_all(files.scripts)?;
        match job.standard_input() {
            Some(role) => self.push(Access::Read, role, Text::of(self.alloc, "-")?),
            None => Ok(()),
        }
    }

    /// The files for the record of sessions and for the image that they leave.
    fn add_kept(&mut self, rack: &SharedRack) -> Result<(), AllocError>
        ensures { OnOk result (self.new ≡ self.old ++ kept_files rack.now) }
    {
        self.add(Access::Write, Role::Record, rack.record_name())?;
        self.add(Access::Write, Role::ImageLeft, rack.image_out.as_ref())
    }

    /// A file of this name with an ending.
    fn add_ended(
        &mut self,
        access: Access,
        role: Role,
        name: &Text,
        ending: &str,
    ) -> Result<(), AllocError>
        ensures { OnOk result
            (self.new ≡ self.old ++ file access (name.now ++ ending.now) ∷ []) }
    {
        self.push(access, role, name.with_ending(self.alloc, ending)?)
    }

    /// The files of clients.
    fn add_clients(&mut self, clients: &[Text]) -> Result<(), AllocError>
        ensures { OnOk result (self.new ≡ self.old ++ flat_map client_files clients.now) }
    {
        for client in clients {
            self.add_ended(Access::Read, Role::Said, client, ".in")?;
            self.add_ended(Access::Told, Role::Told, client, ".out")?;
        }
        Ok(())
    }

    /// The files of a port, where there is one.
    fn add_port(&mut self, port: Option<&Text>) -> Result<(), AllocError>
        ensures { OnOk result
            (self.new ≡ self.old ++ flat_map port_files (option_to_list (bytes_of port.entry))) }
    {
        let Some(port) = port else {
            return Ok(());
        };
        self.add(Access::Port, Role::Port, Some(port))?;
        self.add_ended(Access::Port, Role::PortIn, port, ".in")?;
        self.add_ended(Access::Read, Role::PortOut, port, ".out")
    }

    /// The files that a job reads or writes beside.
    fn add_beside(&mut self, job: &Job) -> Result<(), AllocError>
        ensures { OnOk result (self.new ≡ self.old ++ files_beside job.now) }
    {
        match job {
            Job::Ports(PortJob::Drive { port, port_b, .. }) => {
                self.add_port(Some(port))?;
                self.add_port(port_b.as_ref())
            }
            Job::Sessions { rack, job } => {
                self.add_kept(rack)?;
                self.add_clients(job.clients())
            }
            Job::Texts(_) | Job::Ports(PortJob::C004) => Ok(()),
        }
    }
}

/// All files that a job names: first those that it reads itself, in their order.
pub fn file_uses(alloc: Global, job: &Job) -> Result<Vec<FileUse>, AllocError>
    ensures { IfOk result (λ uses. uses.items ≡ the_uses job.now) }
{
    let uses = Vec::new(alloc);
    let mut gathered = Gathered { alloc, uses };
    gathered.read_files(job)?;
    gathered.add_beside(job)?;
    let Gathered { uses, .. } = gathered;
    Ok(uses)
}
