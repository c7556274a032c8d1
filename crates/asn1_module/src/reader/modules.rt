//! Modules and assignments (X.680 13, 16; X.681 9; X.683 8).

use crate::mistake::{ModuleError, Place};
use crate::reader::{Environment, MOST_DEPTH, Reader};
use crate::syntax::{Assignment, Import, Known, Meaning, ModuleEntry};
use crate::tokens::TokenKind;

impl<'s, 't> Reader<'s, 't> {
    /// Reads all modules.
    pub(crate) fn read_all(&mut self) -> Result<(), ModuleError> {
        for _ in 0..self.left() {
            if self.left() == 0 {
                break;
            }
            if self.is_kind(0, TokenKind::End) {
                self.advance();
            } else {
                self.read_module()?;
            }
        }
        Ok(())
    }

    /// Reads a module.
    fn read_module(&mut self) -> Result<(), ModuleError> {
        let place = self.place();
        let name = self.expect_word(TokenKind::Reference, "the name of a module")?;
        self.module = self.syntax.modules.len();
        self.syntax.modules.push(ModuleEntry { name, place })?;
        if self.is("{") {
            self.skip_brackets()?;
        }
        self.expect("DEFINITIONS")?;
        self.read_environment()?;
        self.expect("::=")?;
        self.expect("BEGIN")?;
        if self.takes("EXPORTS") {
            self.skip_behind(";")?;
        }
        if self.takes("IMPORTS") {
            self.read_imports()?;
        }
        self.read_assignments()
    }

    /// Reads what a module says of its tags and extension marks.
    fn read_environment(&mut self) -> Result<(), ModuleError> {
        let automatic = self.takes("AUTOMATIC");
        let implicit = automatic || self.takes("IMPLICIT");
        if implicit || self.takes("EXPLICIT") {
            self.expect("TAGS")?;
        }
        let extensible = self.takes("EXTENSIBILITY");
        if extensible {
            self.expect("IMPLIED")?;
        }
        self.environment = Environment {
            implicit,
            automatic,
            extensible,
        };
        Ok(())
    }

    /// Reads the names that a module imports, to the semicolon.
    fn read_imports(&mut self) -> Result<(), ModuleError> {
        for _ in 0..self.left() {
            if self.takes(";") {
                return Ok(());
            }
            self.read_import()?;
        }
        Err(self.expected(";"))
    }

    /// Reads the names that a module imports from another one.
    fn read_import(&mut self) -> Result<(), ModuleError> {
        let first = self.syntax.imports.len();
        for _ in 0..self.left() {
            if self.takes("FROM") {
                break;
            }
            self.read_import_name()?;
        }
        let from = self.expect_word(TokenKind::Reference, "the name of a module")?;
        for import in self.syntax.imports.iter_mut().skip(first) {
            import.from = from;
        }
        if self.is("{") {
            self.skip_brackets()?;
        } else if self.is_kind(0, TokenKind::Identifier)
            && !self.is_at(1, ",")
            && !self.is_at(1, "FROM")
        {
            self.advance();
        }
        if self.takes("WITH") {
            self.advance();
        }
        Ok(())
    }

    /// Reads a name that is imported, and the comma behind it.
    fn read_import_name(&mut self) -> Result<(), ModuleError> {
        let place = self.place();
        let kind = if self.is_kind(0, TokenKind::Identifier) {
            TokenKind::Identifier
        } else {
            TokenKind::Reference
        };
        let name = self.expect_word(kind, "the name of an import")?;
        if self.is("{") {
            self.skip_brackets()?;
        }
        let module = self.module;
        self.syntax.imports.push(Import {
            module,
            name,
            from: "",
            place,
        })?;
        if !self.takes(",") && !self.is("FROM") {
            return Err(self.expected("FROM"));
        }
        Ok(())
    }

    /// Reads assignments, to the end of the module.
    fn read_assignments(&mut self) -> Result<(), ModuleError> {
        for _ in 0..self.left() {
            if self.takes("END") {
                return Ok(());
            }
            self.read_assignment()?;
        }
        Err(self.expected("END"))
    }

    /// Reads an assignment.
    fn read_assignment(&mut self) -> Result<(), ModuleError> {
        let place = self.place();
        if self.is_kind(0, TokenKind::Identifier) {
            let name = self.expect_word(TokenKind::Identifier, "a name")?;
            let meaning = self.read_value_meaning(name)?;
            return self.put_assignment(name, place, meaning);
        }
        let name = self.expect_word(TokenKind::Reference, "an assignment or END")?;
        let meaning = self.read_type_meaning(name)?;
        self.put_assignment(name, place, meaning)
    }

    /// Puts an assignment behind the others.
    fn put_assignment(
        &mut self,
        name: &'t str,
        place: Place,
        meaning: Meaning,
    ) -> Result<(), ModuleError> {
        let module = self.module;
        self.syntax.assignments.push(Assignment {
            module,
            name,
            place,
            meaning,
        })?;
        Ok(())
    }

    /// Reads what a name with a small letter is assigned to.
    fn read_value_meaning(&mut self, name: &'t str) -> Result<Meaning, ModuleError> {
        if self.is("{") {
            self.read_parameters(name)?;
        }
        if self.is("::=") {
            return Err(self.expected("a type"));
        }
        Ok(Meaning::Value(self.read_assigned_value()?))
    }

    /// Reads what a name with a capital letter is assigned to.
    fn read_type_meaning(&mut self, name: &'t str) -> Result<Meaning, ModuleError> {
        if self.takes("MACRO") {
            self.skip_behind("END")?;
            return Ok(Meaning::Other);
        }
        if self.is("{") {
            self.read_parameters(name)?;
        }
        if !self.is("::=") {
            return self.skip_set();
        }
        self.advance();
        if self.takes("CLASS") {
            self.read_class(name)?;
            return Ok(Meaning::Other);
        }
        if self.takes("TYPE-IDENTIFIER") || self.takes("ABSTRACT-SYNTAX") {
            self.put_identifier(name, "&id")?;
            return Ok(Meaning::Other);
        }
        if self.is("{") {
            self.skip_brackets()?;
            return Ok(Meaning::Other);
        }
        self.owner = name;
        let of = self.read_type(MOST_DEPTH)?;
        self.rename_type(of, name);
        self.name_type(of, name);
        Ok(Meaning::Type(of))
    }

    /// Gives a type the name that it is assigned to.
    fn rename_type(&mut self, of: usize, name: &'t str) {
        if let Some(entry) = self.syntax.types.get_mut(of) {
            entry.name = name;
        }
    }

    /// Goes behind a set of values or objects: its type or class, and its braces.
    fn skip_set(&mut self) -> Result<Meaning, ModuleError> {
        if !self.is_kind(0, TokenKind::Reference) {
            return Err(self.expected("::="));
        }
        self.skip_behind("::=")?;
        if !self.is("{") {
            return Err(self.expected("{"));
        }
        self.skip_brackets()?;
        Ok(Meaning::Other)
    }

    /// Reads the parameters of an assignment. A governor, which has a colon behind it, is no parameter.
    fn read_parameters(&mut self, of: &'t str) -> Result<(), ModuleError> {
        self.expect("{")?;
        for _ in 0..self.left() {
            if self.takes("}") {
                return Ok(());
            }
            if self.is_at(1, ",") || self.is_at(1, "}") {
                let module = self.module;
                let name = self.word();
                self.syntax.parameters.push(Known { module, of, name })?;
            }
            self.advance();
        }
        Err(self.expected("}"))
    }

    /// Notes that a field of a class is an OBJECT IDENTIFIER.
    fn put_identifier(&mut self, of: &'t str, name: &'t str) -> Result<(), ModuleError> {
        let module = self.module;
        self.syntax.identifiers.push(Known { module, of, name })?;
        Ok(())
    }

    /// Reads the fields of a class, of which only those are kept that are an OBJECT IDENTIFIER.
    fn read_class(&mut self, of: &'t str) -> Result<(), ModuleError> {
        let mut open = 0u64;
        for _ in 0..self.left() {
            if self.is_kind(0, TokenKind::End) {
                break;
            }
            if self.is_kind(0, TokenKind::ClassField) && self.is_at(1, "OBJECT") {
                let name = self.word();
                self.put_identifier(of, name)?;
            }
            if self.is("{") {
                open = open.saturating_add(1);
            } else if self.is("}") {
                open = open.saturating_sub(1);
            }
            self.advance();
            if open == 0 {
                return self.skip_class_syntax();
            }
        }
        Err(self.expected("}"))
    }

    /// Goes behind what a class says of how its objects are written.
    fn skip_class_syntax(&mut self) -> Result<(), ModuleError> {
        if self.takes("WITH") {
            self.expect("SYNTAX")?;
            self.skip_brackets()?;
        }
        Ok(())
    }
}
