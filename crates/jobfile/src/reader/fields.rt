// The bodies of fields, one kind after the other.
ghost use Rattle.jobfile.specs.declared.fields.Field.TheVariants as field;

use crate::checks::{check_call, check_order, check_row, check_sheet};
use crate::job::Job;
use crate::reader::{Reader, behind};
use rules::{Fault, Request, Row, number_at};

impl Reader<'_> {
    ghost use Rattle.jobfile.specs.Readers.{Due, BodyRead};

    // The sheet: a job is begun with it.
    pub(crate) fn read_sheet(&mut self, body: &[u8]) -> Result<(), Fault>
        requires { Due self.old field.Sheet body.now }
        ensures { BodyRead self.old field.Sheet body.now result self.new }
    {
        let cap = number_at(body, 2);
        check_sheet(body[0], body[1], cap, self.at)?;
        self.rows = 0;
        self.job = Job::begun(self.file.len(), body[0], body[1], cap);
        self.at = behind(self.at, body);
        Ok(())
    }

    // A row behind those read.
    pub(crate) fn read_row(&mut self, body: &[u8]) -> Result<(), Fault>
        requires { Due self.old field.Row body.now }
        ensures { BodyRead self.old field.Row body.now result self.new }
    {
        let row = Row {
            kind: body[0],
            limit: number_at(body, 1),
        };
        check_row(row, self.at)?;
        self.job.sheet.rows[usize::from(self.rows)] = row;
        self.rows += 1;
        self.at = behind(self.at, body);
        Ok(())
    }

    // The order.
    pub(crate) fn read_order(&mut self, body: &[u8]) -> Result<(), Fault>
        requires { Due self.old field.Order body.now }
        ensures { BodyRead self.old field.Order body.now result self.new }
    {
        check_order(self.job.sheet.places, body, self.at)?;
        // `0..`: of a reader's own table the check does not cover `[..n]` yet.
        self.job.sheet.order[0..body.len()].copy_from_slice(body);
        self.at = behind(self.at, body);
        Ok(())
    }

    // A call behind those read.
    pub(crate) fn read_call(&mut self, body: &[u8]) -> Result<(), Fault>
        requires { Due self.old field.Call body.now }
        ensures { BodyRead self.old field.Call body.now result self.new }
    {
        let request = Request {
            code: body[0],
            row: body[1],
            number: number_at(body, 2),
        };
        check_call(self.job.calls.list().len(), request, self.at)?;
        let Ok(()) = self.job.calls.push(request) else {
            unreachable()
        };
        self.at = behind(self.at, body);
        Ok(())
    }
}
