//! `case`, and selections: from a table expression directly, or from another term.
use crate::refusing::Said;
use crate::state::{Found, Typing};
use crate::stopped::Stopped;
use crate::task::{Role, Task};
use gft_forms::Form;
use gft_nodes::Node;
use gft_rules::Rule;
use gft_types::{STR, TYPE_SORT, TypeId};
use std::alloc::Global;

impl Typing {
    /// `case e of {..}`: e is found first.
    pub(crate) fn case_of(
        &mut self,
        e: u32,
        at: u32,
        given: Option<TypeId>,
    ) -> Result<(), Stopped> {
        self.push(Task::CaseBegin(e, e, given))?;
        self.push(Task::Term(at, None))
    }

    /// The selector was found: its type is what the branches are over.
    pub(crate) fn case_begin(
        &mut self,
        table: u32,
        e: u32,
        given: Option<TypeId>,
    ) -> Result<(), Stopped> {
        let over = self.last_type();
        self.push(Task::CaseEnd(table, e))?;
        self.begin_branches(table, over, given)
    }

    /// The branches after their selector were typed.
    pub(crate) fn case_end(&mut self, alloc: Global, table: u32, e: u32) -> Result<(), Stopped> {
        let (over, values) = self.end_table();
        let branches = self.pop_branches(alloc, self.cases_of(table))?;
        self.covered(alloc, table, over, true)?;
        let at = self.pop_found().node;
        let place = self.forms.place(e);
        self.answer(Node::Case(at, branches, place), values)
    }

    /// `t ! e`
    pub(crate) fn select(&mut self, e: u32, table: u32, at: u32) -> Result<(), Stopped> {
        match self.forms.form(table) {
            Form::Table(_) => {
                self.push(Task::CaseBegin(table, e, None))?;
                self.push(Task::Term(at, None))
            }
            Form::TableOver(over, _) => {
                self.push(Task::DirectBegin(table, e))?;
                self.push(Task::Written(over, Role::Any, TYPE_SORT))
            }
            _ => {
                self.push(Task::SelectAt(e, at))?;
                self.push(Task::Term(table, None))
            }
        }
    }

    /// The type of a table that is selected from directly was written.
    pub(crate) fn direct_begin(&mut self, table: u32, e: u32) -> Result<(), Stopped> {
        let over = self.pop_written();
        self.push(Task::DirectAt(table, e))?;
        self.begin_branches(table, over, None)
    }

    /// What the innermost table is over.
    fn innermost_domain(&self) -> TypeId {
        match self.tables.last() {
            None => STR, // excluded by direct_begin
            Some(table) => table.over,
        }
    }

    /// Its branches were typed, and its selector comes.
    pub(crate) fn direct_at(&mut self, alloc: Global, table: u32, e: u32) -> Result<(), Stopped> {
        let over = self.innermost_domain();
        self.covered(alloc, table, over, true)?;
        self.push(Task::DirectEnd(table, e))?;
        match self.forms.form(e) {
            Form::Select(_, at) => self.push(Task::Term(at, Some(over))),
            _ => Ok(()), // excluded by select
        }
    }

    pub(crate) fn direct_end(&mut self, alloc: Global, table: u32, e: u32) -> Result<(), Stopped> {
        let at = self.pop_found().node;
        let (_, values) = self.end_table();
        let branches = self.pop_branches(alloc, self.cases_of(table))?;
        let place = self.forms.place(e);
        self.answer(Node::Case(at, branches, place), values)
    }

    /// The left side of a selection was found.
    pub(crate) fn select_at(&mut self, e: u32, at: u32) -> Result<(), Stopped> {
        let of = self.last_type();
        let Some((over, _)) = self.types.table_of(of) else {
            return Err(self.broken_at(Rule::NotTable, e, Said::Type(of)));
        };
        self.push(Task::SelectEnd(e, at))?;
        self.push(Task::Term(at, Some(over)))
    }

    /// Both sides of a selection were typed.
    pub(crate) fn select_end(&mut self, e: u32, _at: u32) -> Result<(), Stopped> {
        let at = self.pop_found().node;
        let table: Found = self.pop_found();
        let values = match self.types.table_of(table.of) {
            None => STR, // excluded by select_at
            Some((_, values)) => values,
        };
        let node = self.selected(e, table.node, at);
        self.answer(node, values)
    }

    /// A selection from a list of items is one from a table expression.
    fn selected(&self, e: u32, table: u32, at: u32) -> Node {
        match self.nodes.node(table) {
            Node::TableList(over, items) if self.is_direct(e) => {
                Node::CaseList(at, over, items, self.forms.place(e))
            }
            _ => Node::Select(table, at),
        }
    }

    /// Whether the left side of the selection is a list of items.
    fn is_direct(&self, e: u32) -> bool {
        match self.forms.form(e) {
            Form::Select(table, _) => matches!(self.forms.form(table), Form::TableList(_, _)),
            _ => false, // excluded by select
        }
    }
}
