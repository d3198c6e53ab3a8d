// The report of a hub.
ghost use Rattle.std.specs.Prelude.{◌≡◌};
ghost use Rattle.registers.specs.Numbers.{code_of};
ghost use Rattle.hub_runs.specs.States.{size_of, state_in, viewed};
ghost use Rattle.report.specs.Writer.{PrintedBy};
ghost use Rattle.hub_report.specs.Reporting.{Reports};
ghost use Rattle.hub_report.specs.Seen.{HasRegisters, text_seen};

use super::role::{Keys, LastCard};
use hub::look;
use hub_records::hub::Hub;
use hub_records::look::Look;
use hub_tables::tables::View;
use refusals::Refusal;
use registers::Register;
use report::{Writer, print};

// All lines of what was seen of these tables, each if it fits.
fn write_look<R: Register>(seen: &Look, tables: View<'_, R>, writer: &mut Writer<'_>)
    requires { HasRegisters seen.now tables }
    ensures { PrintedBy (text_seen (code_of R.kind) R.figures seen.now tables.entry) writer.old writer.new }
{
    // Read here, both are known to be numbers of 32 bits.
    let Look { steps, losses, .. } = *seen;
    let master = LastCard {
        number: seen.master.0,
        version: seen.master_version,
        registers: tables.master_registers,
    };
    let backup = LastCard {
        number: seen.backup.0,
        version: seen.backup_version,
        registers: tables.backup_registers,
    };
    writer.put_line(b"state", seen.state.name().as_bytes());
    writer.put_number_line(b"steps", steps);
    writer.put_number_line(b"losses", losses);
    master.write(
        Keys {
            number: b"master",
            version: b"master-version",
            register: b"master-register",
        },
        writer,
    );
    backup.write(
        Keys {
            number: b"backup",
            version: b"backup-version",
            register: b"backup-register",
        },
        writer,
    );
    writer.put_mean_line(master.mean());
}

/// Prints the report of a hub to the start of `out` and gives its length; the bytes after it stay as they were. Where the
/// tables do not fit together, or `out` is too short, the report is refused and `out` stays as it was.
pub fn report_text<R: Register>(
    hub: &Hub,
    tables: View<'_, R>,
    out: &mut [u8],
) -> Result<usize, Refusal>
    ensures { Reports (code_of R.kind) (size_of hub.now) (state_in R.figures hub.now (viewed tables.entry)) out.old result out.new }
{
    let seen = look(hub, tables)?;
    print(
        out,
        |writer: &mut Writer<'_>|
            requires { HasRegisters seen tables }
            ensures { PrintedBy (text_seen (code_of R.kind) R.figures seen tables.entry) writer.old writer.new }
        {
            write_look(&seen, tables, writer);
        },
    )
}
