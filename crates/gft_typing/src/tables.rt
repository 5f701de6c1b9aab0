//! Tables, `case`, and their branches.
use crate::refusing::Said;
use crate::state::{Found, Over, Typing, add_part};
use crate::stopped::Stopped;
use crate::task::{Role, Task};
use gft_forms::{Form, Span};
use gft_nodes::{Node, Part};
use gft_rules::Rule;
use gft_types::{STR, TYPE_SORT, TypeId};
use std::alloc::Global;

/// No branches.
const NO_BRANCHES: Span = Span { first: 0, count: 0 };

impl Typing {
    /// The branches of a table or `case`.
    pub(crate) fn cases_of(&self, table: u32) -> Span {
        match self.forms.form(table) {
            Form::Table(cases) => cases,
            Form::TableOver(_, cases) => cases,
            Form::Case(_, cases) => cases,
            _ => NO_BRANCHES, // excluded by the callers
        }
    }

    /// The items of a table that lists them.
    pub(crate) fn items_of(&self, table: u32) -> Span {
        match self.forms.form(table) {
            Form::TableList(_, items) => items,
            _ => NO_BRANCHES, // excluded by the callers
        }
    }

    /// A table is begun. Without a branch the type of its values needs to be given.
    fn begin_table(
        &mut self,
        table: u32,
        over: TypeId,
        values: Option<TypeId>,
        count: u32,
    ) -> Result<(), Stopped> {
        if count == 0 && values.is_none() {
            return Err(self.no_type(table));
        }
        match self.tables.push(Over { over, values }) {
            Ok(()) => Ok(()),
            Err(_) => Err(Stopped::NoMemory),
        }
    }

    /// Branches over a type: all are given the type of the values; where it is not given, the
    /// first one's, which is found.
    pub(crate) fn begin_branches(
        &mut self,
        table: u32,
        over: TypeId,
        values: Option<TypeId>,
    ) -> Result<(), Stopped> {
        let cases = self.cases_of(table);
        self.begin_table(table, over, values, cases.count)?;
        for left in 0..cases.count {
            self.push(Task::Branch(cases, cases.count - 1 - left))?;
        }
        Ok(())
    }

    /// Items, one for each value of a type.
    fn begin_items(
        &mut self,
        table: u32,
        over: TypeId,
        values: Option<TypeId>,
    ) -> Result<(), Stopped> {
        let items = self.items_of(table);
        self.begin_table(table, over, values, items.count)?;
        for left in 0..items.count {
            let item = self.forms.part(items, items.count - 1 - left);
            self.push(Task::Item(item))?;
        }
        Ok(())
    }

    /// The innermost table.
    fn innermost(&self) -> Over {
        match self.tables.last() {
            // excluded by begin_table
            None => Over {
                over: STR,
                values: None,
            },
            Some(table) => *table,
        }
    }

    /// The innermost table, which ends: what it is over, and the type of its values.
    pub(crate) fn end_table(&mut self) -> (TypeId, TypeId) {
        let table = self.innermost();
        let _table = self.tables.pop();
        // it has a branch, or the type was given
        (table.over, table.values.unwrap_or(STR))
    }

    /// A branch: its body sees the variables of its pattern.
    pub(crate) fn branch(&mut self, alloc: Global, cases: Span, at: u32) -> Result<(), Stopped> {
        let table = self.innermost();
        let Some(branch) = self.forms.branch(cases, at) else {
            return Ok(()); // excluded by begin_branches
        };
        let mark = self.mark()?;
        self.bind_pattern(alloc, branch.pattern, table.over)?;
        self.push(Task::Leave(mark))?;
        self.push(Task::ItemEnd(branch.body))?;
        self.push(Task::Term(branch.body, table.values))
    }

    /// An item.
    pub(crate) fn item(&mut self, e: u32) -> Result<(), Stopped> {
        let table = self.innermost();
        self.push(Task::ItemEnd(e))?;
        self.push(Task::Term(e, table.values))
    }

    /// The body of a branch, or an item, was typed: it is data, and its type is that of the values.
    pub(crate) fn item_end(&mut self, e: u32) -> Result<(), Stopped> {
        self.data(e)?;
        let of = self.last_type();
        if let Some(table) = self.tables.last_mut() {
            if table.values.is_none() {
                table.values = Some(of);
            }
        }
        Ok(())
    }

    /// The branches, which were found last and are taken away.
    pub(crate) fn pop_branches(&mut self, alloc: Global, cases: Span) -> Result<Span, Stopped> {
        let mut parts: Vec<Part> = Vec::new(alloc);
        for at in 0..cases.count {
            if let Some(branch) = self.forms.branch(cases, at) {
                let part = Part {
                    key: branch.pattern,
                    node: self.found_at(cases.count, at).node,
                };
                add_part(&mut parts, part)?;
            }
        }
        self.drop_found(cases.count);
        Ok(self.nodes.add_parts(parts.as_slice())?)
    }

    /// The type of the values of a table type that is given.
    fn given_values(&self, given: Option<TypeId>) -> Option<TypeId> {
        let (_, values) = self.types.table_of(given?)?;
        Some(values)
    }

    /// `table {p => e ; ..}` that is given a type.
    pub(crate) fn table(&mut self, e: u32, _cases: Span, given: TypeId) -> Result<(), Stopped> {
        let Some((over, values)) = self.types.table_of(given) else {
            return Err(self.broken_at(Rule::NotTable, e, Said::Type(given)));
        };
        self.push(Task::TableEnd(e, Some(given)))?;
        self.begin_branches(e, over, Some(values))
    }

    /// `table P {p => e ; ..}`
    pub(crate) fn table_over(
        &mut self,
        e: u32,
        over: u32,
        given: Option<TypeId>,
    ) -> Result<(), Stopped> {
        self.push(Task::TableBegin(e, given))?;
        self.push(Task::Written(over, Role::Any, TYPE_SORT))
    }

    pub(crate) fn table_begin(&mut self, e: u32, given: Option<TypeId>) -> Result<(), Stopped> {
        let over = self.pop_written();
        self.push(Task::TableEnd(e, given))?;
        self.begin_branches(e, over, self.given_values(given))
    }

    pub(crate) fn table_end(
        &mut self,
        alloc: Global,
        e: u32,
        given: Option<TypeId>,
    ) -> Result<(), Stopped> {
        let (over, values) = self.end_table();
        let branches = self.pop_branches(alloc, self.cases_of(e))?;
        let of = self.types.table(over, values)?;
        let node = self.nodes.add(Node::Table(over, branches))?;
        let place = self.forms.place(e);
        let found = self.fit_given(alloc, Found { node, of }, given, place)?;
        self.covered(alloc, e, over, false)?;
        self.push_found(found)
    }

    /// `table P [e ; ..]`
    pub(crate) fn table_list(
        &mut self,
        e: u32,
        over: u32,
        given: Option<TypeId>,
    ) -> Result<(), Stopped> {
        self.push(Task::ListBegin(e, given))?;
        self.push(Task::Written(over, Role::Any, TYPE_SORT))
    }

    pub(crate) fn list_begin(&mut self, e: u32, given: Option<TypeId>) -> Result<(), Stopped> {
        let over = self.pop_written();
        self.push(Task::ListEnd(e, given))?;
        self.begin_items(e, over, self.given_values(given))
    }

    pub(crate) fn list_end(
        &mut self,
        alloc: Global,
        e: u32,
        given: Option<TypeId>,
    ) -> Result<(), Stopped> {
        let (over, values) = self.end_table();
        let count = self.items_of(e).count;
        let items = self.pop_parts(alloc, count)?;
        let of = self.types.table(over, values)?;
        let node = self.nodes.add(Node::TableList(over, items))?;
        let place = self.forms.place(e);
        let found = self.fit_given(alloc, Found { node, of }, given, place)?;
        self.all_listed(alloc, e, over, count)?;
        self.push_found(found)
    }
}
