//! The database as a static library: the exports that library/netdb.c calls for tools in C, C++ and Python.
#![tactic(auto)]

mod exports;
mod handle;
mod question_exports;
mod unboxed;
