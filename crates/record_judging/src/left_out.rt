//! Finds the calls of an illegal record that are not needed to say why it is illegal.
//!
//! A *look* is a call that, by its answer, changed nothing. An order that explains calls also explains them without a
//! look. So if the calls are illegal without some looks, these looks are not needed.
//!
//! Other callers may have seen a *change*. But an order that explains calls also explains them if a change may have
//! happened at any moment after it began, or not at all. So if the calls are illegal with that, the change is not
//! needed.
use crate::judging::seems_illegal;
use crate::looks::{Tried, numbers_of};
use crate::written::{Sheet, WrittenCall};
use std::alloc::{AllocError, Global};

/// The number of needed looks after which all later ones are taken to be needed, except the last ones.
const MOST_NEEDED: usize = 8;

/// The number of last looks that are tried one by one.
const LAST_LOOKS: usize = 8;

/// The number of changes that are tried.
const MOST_CHANGES: usize = 8;

/// The role of a call when the calls are judged again.
#[derive(Clone, Copy, PartialEq, Eq)]
enum Role {
    Needed,
    /// It is left out.
    Out,
    /// It may have happened at any moment after it began, or not at all.
    Free,
}

/// Returns the end of a call that was over by a moment.
fn end_by(call: WrittenCall, moment: u64) -> Option<u64> {
    match call.end {
        Some(end) if end <= moment => Some(end),
        _ => None,
    }
}

/// The calls of a record by a moment, each with its role.
#[derive(Drop)]
pub struct Roles {
    moment: u64,
    /// The roles, by the numbers of the calls.
    roles: Vec<Role>,
}

impl Roles {
    /// Makes the roles of calls that are all needed.
    pub fn new(alloc: Global, sheet: &Sheet, moment: u64) -> Result<Roles, AllocError> {
        let roles = vec![in alloc; Role::Needed; sheet.count.saturating_add(1)]?;
        Ok(Roles { moment, roles })
    }

    fn role(&self, number: usize) -> Role {
        match self.roles.get(number) {
            None => Role::Needed,
            Some(role) => *role,
        }
    }

    /// Returns whether a call of this number is needed.
    pub fn needs(&self, number: usize) -> bool {
        self.role(number) == Role::Needed
    }

    fn set(&mut self, numbers: &[usize], role: Role) {
        for number in numbers {
            if let Some(place) = self.roles.get_mut(*number) {
                *place = role;
            }
        }
    }

    /// Returns the needed calls of a caller, as they were known at the moment. Calls that were not over are pending; if
    /// they happen, they have the answers that they had later.
    fn needed_row(
        &self,
        alloc: Global,
        calls: &[WrittenCall],
    ) -> Result<Vec<WrittenCall>, AllocError> {
        let mut row = Vec::new(alloc);
        for call in calls {
            if call.begin <= self.moment && self.needs(call.number) {
                let end = end_by(*call, self.moment);
                row.push(WrittenCall { end, ..*call })?;
            }
        }
        Ok(row)
    }

    /// Adds each free call of a caller, as the call of a caller of its own.
    fn add_free(
        &self,
        alloc: Global,
        rows: &mut Vec<Vec<WrittenCall>>,
        calls: &[WrittenCall],
    ) -> Result<(), AllocError> {
        for call in calls {
            if self.role(call.number) == Role::Free {
                rows.push(vec![in alloc; WrittenCall { end: None, ..*call }]?)?;
            }
        }
        Ok(())
    }

    /// Returns the calls to judge: those that are needed, and those that are free.
    fn asked_rows(
        &self,
        alloc: Global,
        sheet: &Sheet,
    ) -> Result<Vec<Vec<WrittenCall>>, AllocError> {
        let mut rows = Vec::new(alloc);
        for calls in sheet.rows.as_slice() {
            rows.push(self.needed_row(alloc, calls.as_slice())?)?;
            self.add_free(alloc, &mut rows, calls.as_slice())?;
        }
        Ok(rows)
    }

    /// Returns whether the calls are illegal; false if the search gave up.
    fn are_illegal(&self, alloc: Global, sheet: &Sheet) -> Result<bool, AllocError> {
        let rows = self.asked_rows(alloc, sheet)?;
        seems_illegal(alloc, sheet, rows.as_slice())
    }

    /// Gives these calls a role, if the calls are illegal with it. Returns whether they are.
    fn try_role(
        &mut self,
        alloc: Global,
        sheet: &Sheet,
        numbers: &[usize],
        role: Role,
    ) -> Result<bool, AllocError> {
        self.set(numbers, role);
        let are_illegal = self.are_illegal(alloc, sheet)?;
        if !are_illegal {
            self.set(numbers, Role::Needed);
        }
        Ok(are_illegal)
    }

    /// Gives each of these calls a role, if the calls are illegal with it.
    fn try_each(
        &mut self,
        alloc: Global,
        sheet: &Sheet,
        numbers: &[usize],
        role: Role,
    ) -> Result<(), AllocError> {
        for number in numbers {
            let _ = self.try_role(alloc, sheet, &[*number], role)?;
        }
        Ok(())
    }

    /// Leaves out these looks in order, up to the first one that is needed. Returns how many it left out.
    fn leave_out(
        &mut self,
        alloc: Global,
        sheet: &Sheet,
        looks: &[usize],
    ) -> Result<usize, AllocError> {
        let mut low = 0;
        let mut high = looks.len();
        for _ in 0..64 {
            if low < high {
                let middle = high.saturating_sub((high - low) / 2);
                let tried = looks.get(low..middle).unwrap_or(&[]);
                if self.try_role(alloc, sheet, tried, Role::Out)? {
                    low = middle;
                } else {
                    high = middle.saturating_sub(1);
                }
            }
        }
        Ok(low)
    }

    /// Leaves out the early looks that are not needed. Usually none of them is needed.
    fn leave_out_early(
        &mut self,
        alloc: Global,
        sheet: &Sheet,
        looks: &[usize],
    ) -> Result<(), AllocError> {
        if self.try_role(alloc, sheet, looks, Role::Out)? {
            return Ok(());
        }
        let mut rest = looks;
        for _ in 0..MOST_NEEDED {
            let count = self.leave_out(alloc, sheet, rest)?;
            rest = rest.get(count.saturating_add(1)..).unwrap_or(&[]);
        }
        Ok(())
    }

    /// Leaves out the looks that were over before the moment and are not needed. Usually none of them is needed.
    fn leave_out_over(&mut self, alloc: Global, sheet: &Sheet) -> Result<(), AllocError> {
        let looks = numbers_of(alloc, sheet, Tried::LooksBefore(self.moment))?;
        if self.try_role(alloc, sheet, looks.as_slice(), Role::Out)? {
            return Ok(());
        }
        let (early, last) = looks
            .as_slice()
            .split_at(looks.len().saturating_sub(LAST_LOOKS));
        self.leave_out_early(alloc, sheet, early)?;
        self.try_each(alloc, sheet, last, Role::Out)
    }

    /// Leaves out the looks that are not needed. Those that were not over at the moment need not have happened.
    pub fn leave_out_looks(&mut self, alloc: Global, sheet: &Sheet) -> Result<(), AllocError> {
        let open = numbers_of(alloc, sheet, Tried::LooksOpen(self.moment))?;
        self.set(open.as_slice(), Role::Out);
        self.leave_out_over(alloc, sheet)?;
        let last = numbers_of(alloc, sheet, Tried::LooksUntil(self.moment))?;
        let tried = last.get(..LAST_LOOKS).unwrap_or(last.as_slice());
        self.try_each(alloc, sheet, tried, Role::Out)
    }

    /// Leaves out the changes that are not needed among those that were over between two moments.
    pub fn leave_out_changes(
        &mut self,
        alloc: Global,
        sheet: &Sheet,
        from: u64,
    ) -> Result<(), AllocError> {
        let within = Tried::Changes {
            after: from,
            by: self.moment,
        };
        let changes = numbers_of(alloc, sheet, within)?;
        let tried = changes.get(..MOST_CHANGES).unwrap_or(changes.as_slice());
        self.try_each(alloc, sheet, tried, Role::Free)
    }
}
