//! The machine: tasks are done one after the other, the last one first.
use crate::state::Typing;
use crate::stopped::Stopped;
use crate::task::Task;
use std::alloc::Global;

impl Typing {
    /// One task, each by its rule.
    fn step(&mut self, alloc: Global, task: Task) -> Result<(), Stopped> {
        match task {
            Task::Term(e, given) => self.term(alloc, e, given),
            Task::Fit(e, given) => self.fit_last(alloc, e, given),
            Task::Data(e) => self.data(e),
            Task::Checked(e) => self.checked(alloc, e),
            Task::Leave(mark) => self.leave(mark),
            Task::Written(e, role, sort) => self.written(alloc, e, role, sort),
            Task::NameWritten(e, role, sort) => self.name_written(alloc, e, role, sort),
            Task::FormWritten(e, role, sort) => self.form_written(e, role, sort),
            Task::NoTypeHere(e) => self.no_type_here(e),
            Task::TypeTerm => self.type_term(),
            Task::ArrowTo(e, role) => self.arrow_to(e, role),
            Task::ArrowEnd(e) => self.arrow_end(e),
            Task::TabTypeEnd(e) => self.tab_type_end(e),
            Task::PairEnd(e) => self.pair_end(alloc, e),
            Task::LabelsEnd(items) => self.labels_end(alloc, items),
            Task::Operands(e) => self.operands(e),
            Task::ExtendEnd(e) => self.extend_end(alloc, e),
            Task::ProjEnd(e, label) => self.proj_end(e, label),
            Task::CallBegin => self.call_begin(),
            Task::Argument(e) => self.argument(e),
            Task::CallEnd(count) => self.call_end(alloc, count),
            Task::OverloadEnd(e, name, count) => self.overload_end(alloc, e, name, count),
            Task::LambdaEnd(count, given) => self.lambda_end(count, given),
            Task::TableLambdaEnd(binds, given) => self.table_lambda_end(alloc, binds, given),
            Task::Bind(locals, last) => self.bind_group(locals, last),
            Task::LetEnd(locals) => self.let_end(alloc, locals),
            Task::VariantsRest(members) => self.variants_rest(members),
            Task::VariantsEnd(count, given) => self.variants_end(alloc, count, given),
            Task::FieldFit(e, given) => self.fit_last(alloc, e, given),
            Task::RecordEnd(e, fields, given) => self.record_end(alloc, e, fields, given),
            Task::Branch(cases, at) => self.branch(alloc, cases, at),
            Task::Item(e) => self.item(e),
            Task::ItemEnd(e) => self.item_end(e),
            Task::TableBegin(e, given) => self.table_begin(e, given),
            Task::TableEnd(e, given) => self.table_end(alloc, e, given),
            Task::ListBegin(e, given) => self.list_begin(e, given),
            Task::ListEnd(e, given) => self.list_end(alloc, e, given),
            Task::CaseBegin(table, e, given) => self.case_begin(table, e, given),
            Task::CaseEnd(table, e) => self.case_end(alloc, table, e),
            Task::DirectBegin(table, e) => self.direct_begin(table, e),
            Task::DirectAt(table, e) => self.direct_at(alloc, table, e),
            Task::DirectEnd(table, e) => self.direct_end(alloc, table, e),
            Task::SelectAt(e, at) => self.select_at(e, at),
            Task::SelectEnd(e, table) => self.select_end(e, table),
        }
    }

    /// Does all tasks.
    pub(crate) fn run(&mut self, alloc: Global) -> Result<(), Stopped> {
        'tasks: for _ in 0..u64::MAX {
            match self.tasks.pop() {
                None => break,
                Some(task) => self.step(alloc, task)?,
            }
        }
        Ok(())
    }
}
