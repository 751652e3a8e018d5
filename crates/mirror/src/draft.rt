//! A request, as far as its client has asked.
ghost use Rattle.std.specs.Prelude.{◌≡◌, ◌≤◌, length};
ghost use Rattle.slices.specs.Held.{rows_over};
ghost use Rattle.packetline.specs.Packets.{over};
ghost use Rattle.requests.specs.Stored.{bytes_of, used as used_by, rows_of, request_at};

use requests::asked::MetaRow;
use requests::fault::RequestFault;
use requests::inner::{store_command, store_pair};
use slices::part::Part;
use slices::rows::Rows;

/// The command and each pair's key and value lie one behind the other over the front of the text, and the rows say where.
#[derive(Drop)]
pub(crate) struct Draft {
    // Fixed memory: the library allocates nothing.
    rows: [MetaRow; 16],
    text: [u8; 8192],
    command: usize,
    pairs: usize,
    used: usize,
    ghost rows_long: { length rows ≡ 16 },
    ghost text_long: { length text ≡ 8192 },
    ghost command_fits: { command ≤ 8192 },
    ghost pairs_fit: { pairs ≤ 16 },
    ghost used_fits: { used ≤ 8192 },
    ghost used_is: { used ≡ used_by (request_at rows text (record { command = command; pairs = pairs })) },
    ghost rows_lie: { rows ≡ rows_over (rows_of command (request_at rows text (record { command = command; pairs = pairs })).pairs) rows },
    ghost text_lies: { text ≡ over (bytes_of (request_at rows text (record { command = command; pairs = pairs }))) text },
}

impl Draft {
    ghost use Rattle.mirror.specs.Memory.{request_of};
    ghost use Rattle.mirror.specs.Drafts.{Commanded, Added};

    /// Nothing is asked.
    pub(crate) fn none() -> Draft {
        let nowhere = Part { at: 0, len: 0 };
        let row = MetaRow {
            key: nowhere,
            value: nowhere,
        };
        Draft {
            rows: [row; 16],
            text: [0; 8192],
            command: 0,
            pairs: 0,
            used: 0,
        }
    }

    /// Begins a request by the line of its command.
    pub(crate) fn begin(&mut self, line: &[u8]) -> Result<(), RequestFault>
        ensures { Commanded line.now result (request_of self.new) }
    {
        let len = store_command(&mut self.text, line)?;
        self.command = len;
        self.pairs = 0;
        self.used = len;
        Ok(())
    }

    /// Adds the pair in a line of metadata.
    pub(crate) fn add(&mut self, line: &[u8]) -> Result<(), RequestFault>
        ensures { Added (request_of self.old) line.now result (request_of self.new) }
    {
        let mut rows = Rows::resume(&mut self.rows, self.pairs);
        let behind = store_pair(&mut rows, &mut self.text, self.used, line)?;
        self.pairs = rows.len();
        self.used = behind;
        Ok(())
    }

    /// The command.
    pub(crate) fn command(&self) -> &[u8]
        ensures { result.now ≡ (request_of self.now).command }
    {
        &self.text[0..self.command]
    }
}
