//! The levels that a manifest gives to what a tool finds, and the options of the same names.

ghost use Rattle.std.specs.Prelude.{◌≡◌, ◌++◌, [], ◌∷◌, OnOk, map, string_bytes};
ghost use Rattle.std.specs.List.{list_any};
ghost use Rattle.isle_cli.specs.Arguments.{given_of, setting_given};
ghost use Rattle.isle_program_manifest.specs.Levels.{is_level_option, is_naming, level_named};
ghost use Rattle.isle_program_manifest.specs.Levels.{level_option, name_level_of, tool_key};
ghost use Rattle.isle_program_manifest.specs.Levels.{with_level, with_levels};

use isle_cli::arguments::Argument;
use std::alloc::{AllocError, Global};

/// A tool that has a table of levels.
#[derive(Clone, Copy)]
pub enum Tool {
    /// `isle-lint`, whose names are those of lints.
    IsleLint,
    /// `isle-check`, whose names are those of kinds of findings.
    IsleCheck,
}

impl Tool {
    /// The key of its table in `lints`.
    pub fn key(self) -> &'static str
        ensures { result.now ≡ tool_key self }
    {
        match self {
            Tool::IsleLint => "isle-lint",
            Tool::IsleCheck => "isle-check",
        }
    }
}

/// What findings count for, as the option of the same name says it.
#[derive(Clone, Copy)]
pub enum Level {
    Allow,
    Warn,
    Deny,
}

impl Level {
    /// The level of this name, or `None` if there is none.
    pub fn named(name: &str) -> Option<Level>
        ensures { result ≡ level_named name.now }
    {
        match name {
            "allow" => Some(Level::Allow),
            "warn" => Some(Level::Warn),
            "deny" => Some(Level::Deny),
            _ => None,
        }
    }

    /// The option of the same name.
    fn option(self) -> &'static str
        ensures { result.now ≡ level_option self }
    {
        match self {
            Level::Allow => "--allow",
            Level::Warn => "--warn",
            Level::Deny => "--deny",
        }
    }
}

/// The name of a lint or of a kind of findings, and its level.
#[derive(Drop)]
pub struct NameLevel {
    pub name: String,
    pub level: Level,
}

/// Adds an option for each level whose name no option of the arguments has: options take
/// precedence. After an error some are added.
pub fn add_levels(
    alloc: Global,
    levels: &[NameLevel],
    arguments: &mut Vec<Argument>,
) -> Result<(), AllocError>
    ensures { OnOk result (map given_of arguments.new.items
        ≡ with_levels (map given_of arguments.old.items) (map name_level_of levels.now)) }
{
    for level in levels {
        add_level(alloc, level, arguments)?;
    }
    Ok(())
}

/// Adds the option for a level, unless an option has its name.
fn add_level(
    alloc: Global,
    level: &NameLevel,
    arguments: &mut Vec<Argument>,
) -> Result<(), AllocError>
    ensures { OnOk result (map given_of arguments.new.items
        ≡ with_level (map given_of arguments.old.items) (name_level_of level.now)) }
{
    if has_name(arguments, level.name.as_str()) {
        return Ok(());
    }
    let option = String::from_str(alloc, level.level.option())?;
    let name = level.name.clone()?;
    arguments.push(Argument::Setting(option, name))?;
    Ok(())
}

/// Returns whether some option for levels has this name.
fn has_name(arguments: &[Argument], name: &str) -> bool
    ensures { result ≡ list_any (is_naming name.now) (map given_of arguments.now) }
{
    for argument in arguments {
        if is_naming(argument, name) {
            return true;
        }
    }
    false
}

/// Returns whether an argument is an option for levels with this name.
fn is_naming(argument: &Argument, name: &str) -> bool
    ensures { result ≡ is_naming name.now (given_of argument.now) }
{
    match argument {
        Argument::Setting(option, value) => {
            is_level_option(option.as_str()) && value.as_str() == name
        }
        Argument::Flag(_) | Argument::Name(_) => false,
    }
}

/// Returns whether the value of an option is the name of a lint or of a kind.
fn is_level_option(option: &str) -> bool
    ensures { result ≡ is_level_option option.now }
{
    option == "--lint" || option == "--allow" || option == "--warn" || option == "--deny"
}
