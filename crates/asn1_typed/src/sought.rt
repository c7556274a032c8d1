//! Types by their names.
ghost use Rattle.std.specs.Prelude.{◌≡◌, ◌++◌, IfOk, OnOk};
ghost use Rattle.asn1_typed.specs.Sought.{and_at, bearer_text, bearers_text, bears, missing_text, place_of};
ghost use Rattle.asn1_typed.specs.Sought.{several_text, sought, sought_text, spelled};

use asn1_module::modules::ModuleType;
use asn1_words::words::push_str;
use std::alloc::AllocError;

/// The name of a type, as `Certificate`, or with its module, as `PKIX1Explicit88.Certificate`.
#[derive(Debug, Clone, Copy)]
pub struct TypeName<'a> {
    /// The module; where there is none, the type may be of any.
    pub module: Option<&'a str>,
    /// The name.
    pub name: &'a str,
}

/// Which type has a name.
#[derive(Debug, Clone, Copy, PartialEq, Eq)]
pub enum Sought {
    /// The one that stands at this place of the table.
    At(usize),
    /// None.
    Missing,
    /// More than one.
    Several,
}

impl Sought {
    /// One more type has the name.
    fn and_at(self, of: usize) -> Sought
        ensures { result ≡ and_at self of }
    {
        match self {
            Sought::Missing => Sought::At(of),
            _ => Sought::Several,
        }
    }
}

impl<'a> TypeName<'a> {
    /// The name that a text spells. What stands before a point is the module.
    pub fn of(text: &'a str) -> TypeName<'a>
        ensures { spelled result ≡ text.entry.now }
    {
        match text.split_once(".") {
            None => TypeName {
                module: None,
                name: text,
            },
            Some((module, name)) => TypeName {
                module: Some(module),
                name,
            },
        }
    }

    /// Whether a type has this name.
    pub fn is_of(&self, named: &ModuleType<'_>) -> bool
        ensures { result ≡ bears self.now named.now }
    {
        if named.name != self.name {
            return false;
        }
        match self.module {
            None => true,
            Some(module) => module == named.module,
        }
    }

    /// Which of the types has this name.
    pub fn sought(&self, types: &[ModuleType<'_>]) -> Sought
        ensures { result ≡ sought self.now types.now }
    {
        let mut found = Sought::Missing;
        for named in types {
            if !self.is_of(named) {
                continue;
            }
            found = found.and_at(named.of);
        }
        found
    }

    /// Appends the name.
    fn push(&self, text: &mut Vec<u8>) -> Result<(), AllocError>
        ensures { OnOk result (text.new.items ≡ text.old.items ++ spelled self.now) }
    {
        if let Some(module) = self.module {
            push_str(text, module)?;
            push_str(text, ".")?;
        }
        push_str(text, self.name)
    }

    /// Appends the name of a type with its module, behind a space, where it has this name.
    fn push_bearer(&self, text: &mut Vec<u8>, named: &ModuleType<'_>) -> Result<(), AllocError>
        ensures { OnOk result (text.new.items ≡ text.old.items ++ bearer_text self.now named.now) }
    {
        if !self.is_of(named) {
            return Ok(());
        }
        push_str(text, " ")?;
        push_str(text, named.module)?;
        push_str(text, ".")?;
        push_str(text, named.name)
    }

    /// Appends the names of all types that have this name.
    fn push_bearers(&self, text: &mut Vec<u8>, types: &[ModuleType<'_>]) -> Result<(), AllocError>
        ensures { OnOk result (text.new.items ≡ text.old.items ++ bearers_text self.now types.now) }
    {
        for named in types {
            self.push_bearer(text, named)?;
        }
        Ok(())
    }
}

/// Appends that no type has a name.
fn push_missing(text: &mut Vec<u8>, name: &TypeName<'_>) -> Result<(), AllocError>
    ensures { OnOk result (text.new.items ≡ text.old.items ++ missing_text name.now) }
{
    push_str(text, "no type ")?;
    name.push(text)?;
    push_str(text, " in the modules\n")?;
    Ok(())
}

/// Appends which types have a name.
fn push_several(
    text: &mut Vec<u8>,
    types: &[ModuleType<'_>],
    name: &TypeName<'_>,
) -> Result<(), AllocError>
    ensures { OnOk result (text.new.items ≡ text.old.items ++ several_text types.now name.now) }
{
    push_str(text, "more than one type ")?;
    name.push(text)?;
    push_str(text, ":")?;
    name.push_bearers(text, types)?;
    push_str(text, "\n")?;
    Ok(())
}

/// The place of the type that has a name. None comes where none has it, or more than one: a line that says so is
/// appended.
pub fn type_named(
    text: &mut Vec<u8>,
    types: &[ModuleType<'_>],
    name: &TypeName<'_>,
) -> Result<Option<usize>, AllocError>
    ensures found { IfOk result (λ found. found ≡ place_of (sought name.now types.now)) }
    ensures tells { OnOk result (text.new.items ≡ text.old.items ++
        sought_text types.now name.now (sought name.now types.now)) }
{
    match name.sought(types) {
        Sought::At(of) => Ok(Some(of)),
        Sought::Missing => {
            push_missing(text, name)?;
            Ok(None)
        }
        Sought::Several => {
            push_several(text, types, name)?;
            Ok(None)
        }
    }
}
