//! What declared types are: components, members, and what stands in an element.

use crate::defaults::default_octets;
use crate::mistake::{ModuleError, Place, Wrong};
use crate::places::{Body, Declared, Places, built};
use crate::syntax::{Appearance, Component, LeftOut, Row, part};
use asn1_schema::build::Schema;
use asn1_schema::parts::{Part, optional, required};
use asn1_schema::schema::{Kind, Presence};

/// A field that has a default.
#[derive(Debug, Clone, Copy)]
struct Defaulted {
    /// The place of the sequence or the set in the table.
    place: usize,
    /// Which field it is.
    field: usize,
    /// The place of its type in the table.
    of: usize,
    /// The place of its value.
    value: usize,
    /// Where it stands in the texts.
    stands: Place,
}

impl<'s, 't> Places<'s, 't> {
    /// Defines all declared types.
    pub(crate) fn define_all(&mut self, schema: &mut Schema<'t>) -> Result<(), ModuleError> {
        let mut defaults = Vec::new(self.alloc);
        for at in 0..self.declared.len() {
            if let Some(declared) = self.declared.get(at) {
                let declared = *declared;
                self.define(schema, declared, &mut defaults)?;
            }
        }
        for defaulted in &defaults {
            self.put_default(schema, *defaulted)?;
        }
        Ok(())
    }

    /// Defines a declared type.
    fn define(
        &mut self,
        schema: &mut Schema<'t>,
        declared: Declared,
        defaults: &mut Vec<Defaulted>,
    ) -> Result<(), ModuleError> {
        let stands = declared.stands;
        let made = match declared.body {
            Body::Sequence(row) => self.make_row(schema, declared, row, defaults)?,
            Body::Set(row) => self.make_row(schema, declared, row, defaults)?,
            Body::SequenceOf(of) => {
                let member = self.known(of, stands)?;
                built(stands, schema.sequence_of("", member))?
            }
            Body::SetOf(of) => {
                let member = self.known(of, stands)?;
                built(stands, schema.set_of("", member))?
            }
            Body::Explicit(of) => {
                let inner = self.known(of, stands)?;
                built(stands, schema.explicit(declared_tag(), inner))?
            }
            Body::Around(inner) => built(stands, schema.explicit(declared_tag(), inner))?,
        };
        built(stands, schema.define(declared.place, made))?;
        drop_last(schema);
        Ok(())
    }

    /// The place of an entry, which all have by now.
    fn known(&self, of: usize, stands: Place) -> Result<usize, ModuleError> {
        match self.placed(of) {
            Some(place) => Ok(place),
            None => Err(stands.error(Wrong::NotDefined)),
        }
    }

    /// Makes a sequence or a set.
    fn make_row(
        &mut self,
        schema: &mut Schema<'t>,
        declared: Declared,
        row: Row,
        defaults: &mut Vec<Defaulted>,
    ) -> Result<usize, ModuleError> {
        let mut parts = Vec::new(self.alloc);
        for component in part(&self.texts.syntax.components, row.span) {
            let of = self.known(component.of, component.place)?;
            if let Appearance::Default(value) = component.appearance {
                defaults.push(Defaulted {
                    place: declared.place,
                    field: parts.len(),
                    of,
                    value,
                    stands: component.place,
                })?;
            }
            parts.push(part_of(component, of))?;
        }
        let made = match (is_set(declared), row.is_open) {
            (false, false) => schema.sequence("", &parts),
            (false, true) => schema.open_sequence("", &parts),
            (true, false) => schema.set("", &parts),
            (true, true) => schema.open_set("", &parts),
        };
        built(declared.stands, made)
    }

    /// Puts a default into a sequence or a set. One that is not read is noted, and the field may be left out.
    fn put_default(
        &mut self,
        schema: &mut Schema<'t>,
        defaulted: Defaulted,
    ) -> Result<(), ModuleError> {
        let made = default_octets(
            self.alloc,
            self.texts,
            schema,
            defaulted.of,
            defaulted.value,
        )?;
        match made {
            None => self.note(LeftOut::Default, defaulted.stands),
            Some(octets) => {
                set_default(schema, defaulted, octets);
                Ok(())
            }
        }
    }
}

/// A tag of a type that is taken away again.
fn declared_tag() -> asn1_schema::schema::TypeTag {
    asn1_schema::build::context(0)
}

/// Takes away the last type, which another one was defined as.
fn drop_last(schema: &mut Schema<'_>) {
    let _ = schema.nodes.pop();
    let _ = schema.names.pop();
}

/// Whether a declared type is a set.
fn is_set(declared: Declared) -> bool {
    matches!(declared.body, Body::Set(_))
}

/// The field that a component is. One with a default may be left out, until the default is put there.
fn part_of<'t>(component: &Component<'t>, of: usize) -> Part<'t> {
    match component.appearance {
        Appearance::Required => required(component.name, of),
        _ => optional(component.name, of),
    }
}

/// Sets the default of a field.
fn set_default(schema: &mut Schema<'_>, defaulted: Defaulted, octets: Vec<u8>) {
    if let Some(node) = schema.nodes.get_mut(defaulted.place) {
        let fields = match &mut node.kind {
            Kind::Sequence(fields, _) => fields,
            Kind::Set(fields, _) => fields,
            _ => return,
        };
        if let Some(field) = fields.get_mut(defaulted.field) {
            field.presence = Presence::Default(octets);
        }
    }
}
