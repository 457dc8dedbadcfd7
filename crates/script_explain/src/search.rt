//! The search for what is wrong in a part of a script.

use crate::chain_words::{CHAIN, FAULT, OPERATOR_ROWS, shape_of, source_shape};
use crate::flow_words::{FLOW_ROWS, SCRIPT, STOP};
use crate::head::{Script, items_of};
use crate::report::{Looked, Owner, Report};
use crate::step_words::STEP_ROWS;
use crate::words::{Form, Row, Shape, known_keys, known_tags, row_named};
use json_places::{Member, Spot, nearest};
use script_format::is_name;
use std::alloc::AllocError;

/// What a search looks for.
#[derive(Clone, Copy)]
pub enum Aim {
    /// A key or a value of the wrong form.
    Shape,
    /// A limit that is exceeded, if all forms are right.
    Limit,
}

/// A value, and what it should be.
#[derive(Clone, Copy)]
pub struct Task<'a> {
    pub spot: Spot<'a>,
    pub owner: Owner,
    pub form: Form,
}

/// A search through a part of a script, which ends at the first thing that is wrong.
#[derive(Drop)]
pub struct Search<'a, 'r> {
    pub script: Script<'a>,
    pub aim: Aim,
    /// The values to check, in order.
    pub tasks: Vec<Task<'a>>,
    pub report: &'r mut Report<'a>,
}

impl<'a> Search<'a, '_> {
    /// Reports a member with an unknown key. `version` names this version if the other one knows the key.
    fn no_key(
        &mut self,
        object: Spot<'a>,
        shape: Shape,
        member: Member<'a>,
        version: &'static str,
    ) -> Looked {
        let keys = known_keys(self.script.text.alloc, shape.keys, self.script.version)?;
        self.report.begin_value(member.key);
        write!(
            self.report,
            " is no key of {}{version}\n  expected: ",
            shape.name
        );
        match shape.missing(self.script.version, object.value) {
            Some(key) => self.report.add_key(key),
            None => {
                write!(self.report, "no key but ");
                self.report.add_choices(keys.as_slice());
            }
        }
        self.report.end_near(member.name, keys.as_slice())
    }

    /// Looks for a key that the object may not have.
    fn unknown(&mut self, object: Spot<'a>, shape: Shape) -> Looked {
        let mut from = object.at.saturating_add(1);
        for _ in 0..self.script.text.bytes.len() {
            let Some(member) = self.script.text.member_from(object, from)? else {
                break;
            };
            let version = match shape.key_named(member.name) {
                Some(key) if key.need.is_known(self.script.version) => {
                    from = member.end;
                    continue;
                }
                Some(_) => self.script.version.words(),
                None => "",
            };
            return self.no_key(object, shape, member, version);
        }
        Ok(())
    }

    /// Adds a value, which is checked later.
    fn add(&mut self, spot: Spot<'a>, owner: Owner, form: Form) -> Result<(), AllocError> {
        self.tasks.push(Task { spot, owner, form })?;
        Ok(())
    }

    /// Checks the keys of an object: that none is unknown, and none is missing. Its values are checked later.
    fn object(&mut self, object: Spot<'a>, shape: Shape) -> Looked {
        self.unknown(object, shape)?;
        if let Some(key) = shape.missing(self.script.version, object.value) {
            return self.report.tell_missing(object.at, shape.name, key);
        }
        for key in shape.keys {
            if let Some(spot) = self.script.text.member(object, key.word)? {
                self.add(spot, Owner::Member(key.word), key.form)?;
            }
        }
        Ok(())
    }

    /// Returns whether a row has another word near this one, and the object has the keys of the row.
    fn is_meant(&self, object: Spot<'a>, row: Row, word: &str) -> Result<bool, AllocError> {
        let version = self.script.version;
        let fits = shape_of(row, object.value).fits(version, object.value);
        Ok(
            row.word != word
                && fits
                && row.need.is_known(version)
                && nearest(self.script.text.alloc, word, &[row.word])?.is_some(),
        )
    }

    /// Reports a tag whose object has the keys of another row, and not those of its own, if that row has a near word.
    fn other_row(
        &mut self,
        object: Spot<'a>,
        tag: &'static str,
        found: Spot<'a>,
        shape: Shape,
        rows: &'static [Row],
    ) -> Looked {
        for row in rows {
            if self.is_meant(object, *row, found.value.as_str().unwrap_or(""))? {
                let keys = known_keys(self.script.text.alloc, shape.keys, self.script.version)?;
                self.report.begin_value(found.at);
                write!(
                    self.report,
                    " is no value of \"{tag}\" beside these keys\n  nearest: \"{tag}\": \"{}\"",
                    row.word
                );
                write!(self.report, "\n  expected: the keys of {}, ", shape.name);
                self.report.add_choices(keys.as_slice());
                return self.report.end();
            }
        }
        Ok(())
    }

    /// Reports a tag that is missing or has an unknown word. `version` names this version if the other one knows the
    /// word.
    fn no_row(
        &mut self,
        object: Spot<'a>,
        tag: &'static str,
        found: Option<Spot<'a>>,
        version: &'static str,
        rows: &'static [Row],
    ) -> Looked {
        let tags = known_tags(self.script.text.alloc, rows, self.script.version)?;
        match found {
            Some(found) => {
                let word = found.value.as_str().unwrap_or("");
                self.report.begin_value(found.at);
                write!(self.report, " is no value of \"{tag}\"{version}");
                self.report.add_near(word, tags.as_slice());
                write!(self.report, "\n  expected: one of ");
            }
            None => {
                self.report.begin(object.at);
                write!(
                    self.report,
                    "there is no \"{tag}\"\n  expected: \"{tag}\", one of "
                );
            }
        }
        self.report.add_choices(tags.as_slice());
        self.report.end()
    }

    /// Checks an object whose keys depend on its tag.
    fn tagged(&mut self, object: Spot<'a>, tag: &'static str, rows: &'static [Row]) -> Looked {
        let Some(found) = self.script.text.member(object, tag)? else {
            return self.no_row(object, tag, None, "", rows);
        };
        let version = match row_named(rows, found.value.as_str().unwrap_or("")) {
            Some(row) if row.need.is_known(self.script.version) => {
                let shape = shape_of(row, object.value);
                if !shape.fits(self.script.version, object.value) {
                    self.other_row(object, tag, found, shape, rows)?;
                }
                return self.object(object, shape);
            }
            Some(_) => self.script.version.words(),
            None => "",
        };
        self.no_row(object, tag, Some(found), version, rows)
    }

    /// Checks an item of a list, which should have this form. An operator is checked later, since it has members of its
    /// own; any other item is checked now.
    fn item(&mut self, spot: Spot<'a>, owner: Owner, form: Form) -> Looked {
        match form {
            Form::Operator => {
                self.add(spot, owner, form)?;
                Ok(())
            }
            _ if form.fits(spot.value) => Ok(()),
            Form::Entry if spot.value.is_object() => self.object(spot, FAULT),
            _ => self.report.tell_form(owner, spot, form),
        }
    }

    /// Checks the items of a list, which should have this form, up to the first one that is wrong.
    fn items(&mut self, list: Task<'a>, form: Form) -> Looked {
        let owner = match list.owner {
            Owner::Member(key) => Owner::Item(key),
            other => other,
        };
        let mut next = self.script.text.part_from(list.spot.at.saturating_add(1));
        for value in items_of(list.spot.value) {
            let Some(at) = next else {
                break;
            };
            self.item(Spot { value, at }, owner, form)?;
            next = self.script.text.part_after(at);
        }
        Ok(())
    }

    /// Checks the names of flows. The flows are checked later.
    fn flows(&mut self, flows: Spot<'a>) -> Looked {
        let mut from = flows.at.saturating_add(1);
        for _ in 0..self.script.text.bytes.len() {
            let Some(flow) = self.script.text.member_from(flows, from)? else {
                break;
            };
            if !is_name(flow.name) {
                let key = Spot {
                    value: flows.value,
                    at: flow.key,
                };
                return self.report.tell_form(Owner::FlowName, key, Form::Name);
            }
            self.add(flow.spot, Owner::Item("flows"), Form::Flow)?;
            from = flow.end;
        }
        Ok(())
    }

    /// Checks what is inside a value of the right form.
    fn inside(&mut self, task: Task<'a>) -> Looked {
        let Task { spot, form, .. } = task;
        match form {
            Form::Script => self.object(spot, SCRIPT),
            Form::Step => self.tagged(spot, "do", &STEP_ROWS),
            Form::Flow => self.tagged(spot, "kind", &FLOW_ROWS),
            Form::Flows => self.flows(spot),
            Form::Started if spot.value.is_object() => self.object(spot, STOP),
            Form::Chain => self.object(spot, CHAIN),
            Form::Source => self.object(spot, source_shape(spot.value)),
            Form::Operators => self.items(task, Form::Operator),
            Form::Operator => self.tagged(spot, "op", &OPERATOR_ROWS),
            Form::Numbers(_) => self.items(task, Form::Signed),
            Form::Entries => self.items(task, Form::Entry),
            _ => Ok(()),
        }
    }

    /// Checks the limit of a value, if the search looks for limits.
    fn limit(&mut self, task: Task<'a>) -> Looked {
        if let (Owner::Member(key), Aim::Limit) = (task.owner, self.aim)
            && let Some((size, most, unit)) = task.form.limited(task.spot.value)
            && size > most
        {
            self.report.begin(task.spot.at);
            write!(
                self.report,
                "\"{key}\": {size} {unit}\n  expected: at most {most}"
            );
            return self.report.end();
        }
        Ok(())
    }

    /// Checks all values that were added, and the keys or the items inside them. The values of their keys are added. No
    /// two of them begin at the same byte.
    fn all(&mut self) -> Looked {
        for index in 0..self.script.text.bytes.len() {
            let Some(task) = self.tasks.get(index).copied() else {
                break;
            };
            if !task.form.fits(task.spot.value) {
                return self.report.tell_form(task.owner, task.spot, task.form);
            }
            self.limit(task)?;
            self.inside(task)?;
        }
        Ok(())
    }
}

/// Reports what is wrong in a value of a script that should have this form.
pub fn look_into<'a>(
    script: Script<'a>,
    aim: Aim,
    value: Task<'a>,
    report: &mut Report<'a>,
) -> Looked {
    let mut search = Search {
        script,
        aim,
        tasks: Vec::new(script.text.alloc),
        report,
    };
    search.add(value.spot, value.owner, value.form)?;
    search.all()
}
