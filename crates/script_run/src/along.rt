//! `Along`: what goes along while a script is run.
use db_share::Db;
use script_lang::ScriptLine;
use std::alloc::Global;

/// What goes along while a script is run, and stays as it is.
#[derive(Clone, Copy)]
pub(crate) struct Along<'a, G> {
    pub alloc: Global,
    pub db: &'a Db,
    /// The lines of the script.
    pub lines: &'a [ScriptLine],
    pub gate: &'a G,
}
