//! Components and arms (X.680 25, 29), with extension marks.

use crate::mistake::ModuleError;
use crate::reader::Reader;
use crate::syntax::{Appearance, Component, LeftOut, Row, put_all};
use crate::tokens::TokenKind;

/// The components that were read so far.
#[derive(Debug, Drop)]
struct Items<'t> {
    list: Vec<Component<'t>>,
    /// How many extension marks there were.
    marks: u32,
    /// Whether one has a tag that is written.
    is_tagged: bool,
    /// Whether one stands behind the second mark.
    is_closed: bool,
}

impl<'s, 't> Reader<'s, 't> {
    /// Reads components or arms in braces.
    #[cycle(types)]
    pub(crate) fn read_components(&mut self, depth: usize) -> Result<Row, ModuleError> {
        let mut items = Items {
            list: Vec::new(self.alloc),
            marks: 0,
            is_tagged: false,
            is_closed: false,
        };
        self.expect("{")?;
        if self.takes("}") {
            return self.put_row(items);
        }
        for _ in 0..self.left() {
            self.read_item(depth, &mut items)?;
            self.takes("]]");
            if self.takes("}") {
                return self.put_row(items);
            }
            self.expect(",")?;
        }
        Err(self.expected("}"))
    }

    /// Reads a component, or an extension mark.
    #[cycle(types)]
    fn read_item(&mut self, depth: usize, items: &mut Items<'t>) -> Result<(), ModuleError> {
        if self.takes("...") {
            items.marks = items.marks.saturating_add(1);
            if self.takes("!") {
                self.read_value()?;
            }
            return Ok(());
        }
        if self.takes("[[") && self.is_at(1, ":") {
            self.advance();
            self.advance();
        }
        let component = self.read_component(depth, items)?;
        self.put_component(component, items)
    }

    /// Reads a component.
    #[cycle(types)]
    fn read_component(
        &mut self,
        depth: usize,
        items: &mut Items<'t>,
    ) -> Result<Component<'t>, ModuleError> {
        let place = self.place();
        if self.takes("COMPONENTS") {
            self.expect("OF")?;
            let of = self.read_type(depth)?;
            return Ok(Component {
                name: "",
                place,
                of,
                appearance: Appearance::Components,
                is_addition: false,
            });
        }
        let name = self.expect_word(TokenKind::Identifier, "the name of a component")?;
        items.is_tagged = items.is_tagged || self.is("[");
        let of = self.read_type(depth)?;
        self.name_type(of, name);
        let appearance = self.read_appearance()?;
        Ok(Component {
            name,
            place,
            of,
            appearance,
            is_addition: false,
        })
    }

    /// Reads whether a component may be left out.
    fn read_appearance(&mut self) -> Result<Appearance, ModuleError> {
        if self.takes("OPTIONAL") {
            return Ok(Appearance::Optional);
        }
        if self.takes("DEFAULT") {
            return Ok(Appearance::Default(self.read_value()?));
        }
        Ok(Appearance::Required)
    }

    /// Puts a component behind the others.
    fn put_component(
        &mut self,
        component: Component<'t>,
        items: &mut Items<'t>,
    ) -> Result<(), ModuleError> {
        if items.marks > 1 && !items.is_closed {
            items.is_closed = true;
            self.note(LeftOut::Middle, component.place)?;
        }
        items.list.push(Component {
            is_addition: items.marks == 1,
            ..component
        })?;
        Ok(())
    }

    /// Puts the components behind those of other types. They get tags by their order where none has one that is written
    /// (X.680 25.2), and a module may say that unknown elements follow where there is no mark.
    fn put_row(&mut self, items: Items<'t>) -> Result<Row, ModuleError> {
        let span = put_all(&mut self.syntax.components, &items.list)?;
        Ok(Row {
            span,
            is_open: (items.marks > 0 || self.environment.extensible) && !items.is_closed,
            is_automatic: self.environment.automatic && !items.is_tagged,
        })
    }
}
