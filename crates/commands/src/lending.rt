// What the subcommands read and lend to the calls, and what becomes of an output.
use crate::{Job, Source, Trouble};
use file_facts::Facts;
use files::Inputs;
use std::io::{Input, Print};
use std::os::fd::AsFd;
use std::random::RandomSource;
use std::rt::{Clock, Env, Files};

impl<'a> Source<'a> {
    // Reads the file that word k names, and what is known of it.
    pub fn load(
        rt: &(impl Files + Env + Input),
        k: usize,
        name: &'a mut [u8],
        bytes: &'a mut [u8],
    ) -> Result<(Source<'a>, Facts), Trouble> {
        let name = command_line::word(rt, k, name);
        let Ok(loaded) = files::load(rt, name, bytes) else {
            return Err(Trouble::Word(k));
        };
        let source = Source {
            name,
            bytes: loaded.items,
            stream: None,
        };
        Ok((source, loaded.facts))
    }
}

impl Job {
    // The table that the profile is used with: the one in the file that -t names, or one built for the profile.
    // The job with what is known of that file, and the table.
    pub fn with_table<'a>(
        self,
        rt: &(impl Files + Env + Input),
        limbs: &'a mut [u64],
    ) -> Result<(Job, &'a [u64]), Trouble> {
        let Some(i) = self.line.table else {
            // A profile that is refused has no table; the call that is lent this one says so.
            let _ = tables::build(self.asked.profile, limbs);
            return Ok((self, limbs));
        };
        let mut name = io::buffer();
        let name = command_line::arg(rt, i, &mut name);
        let Ok(table) = files::table::load(rt, name, limbs) else {
            return Err(Trouble::Argument(i));
        };
        let inputs = Inputs {
            table: Some(table.facts),
            ..self.inputs
        };
        Ok((Job { inputs, ..self }, table.items))
    }

    // Writes an output to the file that is named for it, where one is.
    pub fn write_output(
        self,
        rt: &(impl Files<File: AsFd> + Env + Print + Clock + RandomSource),
        bytes: &[u8],
    ) -> Result<(), Trouble> {
        let Some(k) = self.output else {
            return Ok(());
        };
        let mut name = io::buffer();
        let name = command_line::word(rt, k, &mut name);
        match files::saving::save(rt, name, bytes, self.line.over, self.inputs) {
            Ok(()) => Ok(()),
            Err(_) => Err(Trouble::Word(k)),
        }
    }
}
