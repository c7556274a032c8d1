//! Types in the notation of X.680, with their tags and bounds.

use crate::kinds::{kind_word, push_bound, push_integer};
use crate::normal::named::{RowNames, first_tag, is_list, other_tag};
use crate::normal::values::push_value;
use crate::tags::push_tag;
use asn1_schema::names::PartName;
use asn1_schema::schema::{Field, Kind, Node, Presence};
use asn1_words::words::{push_spaces, push_str};
use std::alloc::{AllocError, Global};

/// So many types that have no name nest in a type, with their tags and bounds.
const MOST_NESTED: u8 = 130;

/// As many types without a name are printed for each row of a table: one has its place in few others.
const MOST_REPEATED: usize = 64;

/// As many columns stand before the parts of a type, for each type in which they nest.
const COLUMNS: usize = 4;

/// The least and the most of a number or a size.
type Bounds = (Option<i128>, Option<i128>);

/// The text of modules, so far.
#[derive(Debug, Drop)]
pub(crate) struct Printer<'s, 't> {
    /// The text.
    pub text: Vec<u8>,
    /// The name of the module that is printed.
    pub module: &'t str,
    /// Whether something is not printed: `..` stands in its place.
    pub is_truncated: bool,
    rows: RowNames<'s, 't>,
    left: usize,
}

/// The name of a part, or an empty one.
fn name_of<'t>(labels: &[PartName<'t>], at: usize) -> &'t str {
    match labels.get(at) {
        None => "",
        Some(label) => label.name,
    }
}

/// Appends a range of numbers, or of sizes, in parentheses.
fn push_range(text: &mut Vec<u8>, bounds: Bounds, is_size: bool) -> Result<(), AllocError> {
    push_str(text, if is_size { "SIZE (" } else { "(" })?;
    push_bound(text, "MIN", bounds.0)?;
    push_str(text, "..")?;
    push_bound(text, "MAX", bounds.1)?;
    push_str(text, ")")
}

/// Appends a constraint behind a type: its range, of sizes in parentheses of their own.
fn push_constraint(text: &mut Vec<u8>, bounds: Bounds, is_size: bool) -> Result<(), AllocError> {
    if !is_size {
        push_str(text, " ")?;
        return push_range(text, bounds, false);
    }
    push_str(text, " (")?;
    push_range(text, bounds, true)?;
    push_str(text, ")")
}

/// Appends the tag that a type has in the place of that of its kind, if it has one.
fn push_other_tag(text: &mut Vec<u8>, node: &Node) -> Result<(), AllocError> {
    let Some(tag) = other_tag(node) else {
        return Ok(());
    };
    push_tag(text, tag)?;
    push_str(text, " IMPLICIT ")
}

/// Appends the tag of a type, where it is written, and the word of its kind.
fn push_front(text: &mut Vec<u8>, node: &Node) -> Result<(), AllocError> {
    push_other_tag(text, node)?;
    if let (Kind::Explicit(_), Some(tag)) = (&node.kind, first_tag(node)) {
        push_tag(text, tag)?;
        push_str(text, " ")?;
    }
    push_str(text, kind_word(&node.kind))
}

impl<'s, 't: 's> Printer<'s, 't> {
    /// No text yet.
    pub(crate) fn new(alloc: Global, rows: RowNames<'s, 't>) -> Printer<'s, 't> {
        let left = rows.nodes.len().saturating_mul(MOST_REPEATED);
        Printer {
            text: Vec::new(alloc),
            module: "",
            is_truncated: false,
            rows,
            left,
        }
    }

    /// Appends that something is not printed.
    fn push_truncated(&mut self) -> Result<(), AllocError> {
        self.is_truncated = true;
        push_str(&mut self.text, "..")
    }

    /// Appends the assignment of a type of the module, by its place among the types.
    pub(crate) fn push_assignment(&mut self, at: usize) -> Result<(), AllocError> {
        let Some(named) = self.rows.type_at(at) else {
            return Ok(());
        };
        push_str(&mut self.text, "\n")?;
        push_str(&mut self.text, named.name)?;
        push_str(&mut self.text, " ::= ")?;
        if self.rows.owner(named.of) == Some(at) {
            self.push_row(named.of, MOST_NESTED, 1)?;
        } else {
            self.push_type(named.of, MOST_NESTED, 1)?;
        }
        push_str(&mut self.text, "\n")
    }

    /// Appends the name of a type by its place among the types, with its module where that is another one.
    fn push_name(&mut self, at: usize) -> Result<(), AllocError> {
        let Some(named) = self.rows.type_at(at) else {
            return self.push_truncated();
        };
        if named.module != self.module {
            push_str(&mut self.text, named.module)?;
            push_str(&mut self.text, ".")?;
        }
        push_str(&mut self.text, named.name)
    }

    /// Appends the type at a row, by its name where it has one.
    #[cycle(normal)]
    fn push_type(&mut self, of: usize, depth: u8, level: usize) -> Result<(), AllocError> {
        match self.rows.owner(of) {
            Some(at) => self.push_name(at),
            None => self.push_row(of, depth, level),
        }
    }

    /// Appends the type at a row: that of a name under another tag, or else in line.
    #[cycle(normal)]
    fn push_row(&mut self, of: usize, depth: u8, level: usize) -> Result<(), AllocError> {
        if let Some(at) = self.rows.copied(of) {
            return self.push_copy(of, at);
        }
        let nodes = self.rows.nodes;
        let Some(node) = nodes.get(of) else {
            return self.push_truncated();
        };
        if depth == 0 || self.left == 0 {
            return self.push_truncated();
        }
        self.left -= 1;
        push_front(&mut self.text, node)?;
        self.push_parts(of, &node.kind, depth - 1, level)
    }

    /// Appends the name of a type under the tag that a row has in the place of its tag.
    fn push_copy(&mut self, of: usize, at: usize) -> Result<(), AllocError> {
        let Some(tag) = self.rows.nodes.get(of).and_then(first_tag) else {
            return self.push_truncated();
        };
        push_tag(&mut self.text, tag)?;
        push_str(&mut self.text, " IMPLICIT ")?;
        self.push_name(at)
    }

    /// Appends what stands behind the word of a kind.
    #[cycle(normal)]
    fn push_parts(
        &mut self,
        of: usize,
        kind: &'s Kind,
        depth: u8,
        level: usize,
    ) -> Result<(), AllocError> {
        match kind {
            Kind::Within(inner, lower, upper) => {
                self.push_bounded(*inner, (*lower, *upper), depth, level)
            }
            Kind::Explicit(inner) => self.push_type(*inner, depth, level),
            Kind::SequenceOf(member) => self.push_type(*member, depth, level),
            Kind::SetOf(member) => self.push_type(*member, depth, level),
            Kind::Sequence(fields, unknown) => {
                self.push_fields(of, fields, unknown.is_some(), depth, level)
            }
            Kind::Set(fields, unknown) => {
                self.push_fields(of, fields, unknown.is_some(), depth, level)
            }
            Kind::Choice(arms) => self.push_arms(of, arms, depth, level),
            Kind::Enumerated(_, is_open) => self.push_labels(of, *is_open, level),
            _ if self.rows.labels(of).is_empty() => Ok(()),
            _ => self.push_labels(of, false, level),
        }
    }

    /// Appends a type with bounds. Those of a list in line stand before its members; others would be of the members.
    #[cycle(normal)]
    fn push_bounded(
        &mut self,
        inner: usize,
        bounds: Bounds,
        depth: u8,
        level: usize,
    ) -> Result<(), AllocError> {
        let rows = self.rows.nodes;
        let base = self.rows.behind_bounds(inner);
        let kind = rows.get(base).map(|node| &node.kind);
        let is_in_line = self.rows.owner(inner).is_none() && self.rows.copied(inner).is_none();
        if is_in_line && kind.is_some_and(is_list) {
            return self.push_list(inner, bounds, depth, level);
        }
        let is_size = !matches!(kind, Some(Kind::Integer));
        self.push_type(inner, depth, level)?;
        push_constraint(&mut self.text, bounds, is_size)
    }

    /// Appends a list with bounds before its members. More than these have no notation.
    #[cycle(normal)]
    fn push_list(
        &mut self,
        of: usize,
        bounds: Bounds,
        depth: u8,
        level: usize,
    ) -> Result<(), AllocError> {
        let nodes = self.rows.nodes;
        let Some(node) = nodes.get(of) else {
            return self.push_truncated();
        };
        let (word, member) = match &node.kind {
            Kind::SequenceOf(member) => ("SEQUENCE ", *member),
            Kind::SetOf(member) => ("SET ", *member),
            _ => return self.push_truncated(),
        };
        push_other_tag(&mut self.text, node)?;
        push_str(&mut self.text, word)?;
        push_range(&mut self.text, bounds, true)?;
        push_str(&mut self.text, " OF ")?;
        self.push_type(member, depth, level)
    }

    /// Begins the line of a part.
    fn begin_line(&mut self, is_first: bool, level: usize) -> Result<(), AllocError> {
        push_str(&mut self.text, if is_first { "\n" } else { ",\n" })?;
        push_spaces(&mut self.text, level.saturating_mul(COLUMNS))
    }

    /// Ends the parts of a type, behind an extension mark where there is one.
    fn end_lines(&mut self, is_empty: bool, is_open: bool, level: usize) -> Result<(), AllocError> {
        if is_open {
            self.begin_line(is_empty, level)?;
            push_str(&mut self.text, "...")?;
        }
        if is_empty && !is_open {
            return push_str(&mut self.text, " }");
        }
        self.begin_line(true, level.saturating_sub(1))?;
        push_str(&mut self.text, "}")
    }

    /// Appends named or listed numbers, or named bits, a line each.
    fn push_labels(&mut self, of: usize, is_open: bool, level: usize) -> Result<(), AllocError> {
        push_str(&mut self.text, " {")?;
        let labels = self.rows.labels(of);
        for (at, label) in labels.iter().enumerate() {
            self.begin_line(at == 0, level)?;
            push_str(&mut self.text, label.name)?;
            push_str(&mut self.text, "(")?;
            push_integer(&mut self.text, label.number)?;
            push_str(&mut self.text, ")")?;
        }
        self.end_lines(labels.is_empty(), is_open, level)
    }

    /// Appends fields, a line each.
    #[cycle(normal)]
    fn push_fields(
        &mut self,
        of: usize,
        fields: &'s [Field],
        is_open: bool,
        depth: u8,
        level: usize,
    ) -> Result<(), AllocError> {
        push_str(&mut self.text, " {")?;
        let labels = self.rows.labels(of);
        for (at, field) in fields.iter().enumerate() {
            self.begin_line(at == 0, level)?;
            push_str(&mut self.text, name_of(labels, at))?;
            push_str(&mut self.text, " ")?;
            self.push_type(field.of, depth, level.saturating_add(1))?;
            self.push_presence(field)?;
        }
        self.end_lines(fields.is_empty(), is_open, level)
    }

    /// Appends whether a field may be left out, and what it is then.
    fn push_presence(&mut self, field: &Field) -> Result<(), AllocError> {
        match &field.presence {
            Presence::Required => Ok(()),
            Presence::Optional => push_str(&mut self.text, " OPTIONAL"),
            Presence::Default(octets) => {
                push_str(&mut self.text, " DEFAULT ")?;
                if !push_value(&mut self.text, &self.rows, field.of, octets)? {
                    return self.push_truncated();
                }
                Ok(())
            }
        }
    }

    /// Appends arms, a line each. One behind those that have names is that of an extension mark.
    #[cycle(normal)]
    fn push_arms(
        &mut self,
        of: usize,
        arms: &'s [usize],
        depth: u8,
        level: usize,
    ) -> Result<(), AllocError> {
        push_str(&mut self.text, " {")?;
        let labels = self.rows.labels(of);
        for (at, (arm, label)) in arms.iter().zip(labels.iter()).enumerate() {
            self.begin_line(at == 0, level)?;
            push_str(&mut self.text, label.name)?;
            push_str(&mut self.text, " ")?;
            self.push_type(*arm, depth, level.saturating_add(1))?;
        }
        self.end_lines(labels.is_empty(), labels.len() < arms.len(), level)
    }
}
