// What HTML blocks lay out.
ghost use Rattle.std.specs.Prelude.{◌≡◌, OnOk};
ghost use Rattle.md_text.specs.Html.{html_block, html_environment};
ghost use Rattle.md_text.specs.State.{laid};

use super::Machine;
use crate::environment::Environment;
use md_table::StyleSheet;
use std::alloc::AllocError;

impl<'e, 'a> Machine<'e, 'a> {
    /// An HTML block with this content: its first line stands in the line style round it.
    pub(super) fn html_block<S: StyleSheet>(
        &mut self,
        sheet: &S,
        content: &str,
    ) -> Result<(), AllocError>
        ensures { OnOk result (self.new
            ≡ laid self.old (html_block (S.sheet sheet.now) self.old.environment self.old.spacing content.now)) }
    {
        self.gap()?;
        self.open()?;
        self.spacing.due = false;
        let outer = self.environment;
        self.environment = html_environment(sheet, outer);
        self.copied_lines(true, content)?;
        self.environment = outer;
        self.spacing.due = true;
        Ok(())
    }
}

fn html_environment<S: StyleSheet>(sheet: &S, environment: Environment) -> Environment
    ensures { result ≡ html_environment (S.sheet sheet.now) environment }
{
    Environment {
        line_style: sheet.html(),
        inline_style: sheet.html(),
        ..environment
    }
}
