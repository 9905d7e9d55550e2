//! The protocols' tables, row by row, also for the states that a protocol never reaches; and what a line is in once its core has
//! asked for it, state by state.

ghost use Rattle.std.specs.Prelude.{◌≡◌, true, false, Some, None};
ghost use Rattle.protocol_tables.specs.declared.state.State.TheVariants.{I, S, E, O, M};
ghost use Rattle.protocol_tables.specs.declared.requests.Request.TheVariants.{GetS, GetM};
ghost use Rattle.protocol_tables.specs.declared.requests.Transient.TheVariants.{IsD, ImD, SmD};
ghost use Rattle.protocol_tables.specs.declared.kind.ProtocolKind.TheVariants.{Msi, Mesi, Moesi, Mosi};
ghost use Rattle.protocol_tables.specs.Tables.{msi, mesi, moesi, mosi, table_of};
ghost use Rattle.protocol_tables.specs.Transients.{transient_of};
ghost use Rattle.worked_examples.specs.TableRows.{row_of, row, silent, supplies, sends, dirty, clean};

/// The table of MSI: by state what GetS and GetM do to a copy, what a write in place makes of it, and
/// whether it is dirty; and what a load fills in.
pub fn worked_msi()
    ensures modified { row_of msi M ≡ row (sends S) (supplies I) (Some M) dirty }
    ensures owned { row_of msi O ≡ row (supplies O) (supplies I) None dirty }
    ensures exclusive { row_of msi E ≡ row (supplies S) (supplies I) (Some M) clean }
    ensures shared { row_of msi S ≡ row (silent S) (silent I) None clean }
    ensures invalid { row_of msi I ≡ row (silent I) (silent I) None clean }
    ensures filled_beside_another { msi.filled true ≡ S }
    ensures filled_alone { msi.filled false ≡ S }
{}

/// The table of MESI, in the same way.
pub fn worked_mesi()
    ensures modified { row_of mesi M ≡ row (sends S) (supplies I) (Some M) dirty }
    ensures owned { row_of mesi O ≡ row (supplies O) (supplies I) None dirty }
    ensures exclusive { row_of mesi E ≡ row (supplies S) (supplies I) (Some M) clean }
    ensures shared { row_of mesi S ≡ row (silent S) (silent I) None clean }
    ensures invalid { row_of mesi I ≡ row (silent I) (silent I) None clean }
    ensures filled_beside_another { mesi.filled true ≡ S }
    ensures filled_alone { mesi.filled false ≡ E }
{}

/// The table of MOESI, in the same way.
pub fn worked_moesi()
    ensures modified { row_of moesi M ≡ row (supplies O) (supplies I) (Some M) dirty }
    ensures owned { row_of moesi O ≡ row (supplies O) (supplies I) None dirty }
    ensures exclusive { row_of moesi E ≡ row (supplies S) (supplies I) (Some M) clean }
    ensures shared { row_of moesi S ≡ row (silent S) (silent I) None clean }
    ensures invalid { row_of moesi I ≡ row (silent I) (silent I) None clean }
    ensures filled_beside_another { moesi.filled true ≡ S }
    ensures filled_alone { moesi.filled false ≡ E }
{}

/// The table of MOSI, in the same way.
pub fn worked_mosi()
    ensures modified { row_of mosi M ≡ row (supplies O) (supplies I) (Some M) dirty }
    ensures owned { row_of mosi O ≡ row (supplies O) (supplies I) None dirty }
    ensures exclusive { row_of mosi E ≡ row (supplies S) (supplies I) (Some M) clean }
    ensures shared { row_of mosi S ≡ row (silent S) (silent I) None clean }
    ensures invalid { row_of mosi I ≡ row (silent I) (silent I) None clean }
    ensures filled_beside_another { mosi.filled true ≡ S }
    ensures filled_alone { mosi.filled false ≡ S }
{}

/// Which table each protocol has.
pub fn worked_kinds()
    ensures table_of_msi { table_of Msi ≡ msi }
    ensures table_of_mesi { table_of Mesi ≡ mesi }
    ensures table_of_moesi { table_of Moesi ≡ moesi }
    ensures table_of_mosi { table_of Mosi ≡ mosi }
{}

/// What a line is in between its core's request and the words' coming in, by the state of its copy.
pub fn worked_transients()
    ensures modified_copy_asks_for_no_read { transient_of M GetS ≡ None }
    ensures owned_copy_asks_for_no_read { transient_of O GetS ≡ None }
    ensures exclusive_copy_asks_for_no_read { transient_of E GetS ≡ None }
    ensures shared_copy_asks_for_no_read { transient_of S GetS ≡ None }
    ensures no_copy_asks_for_a_read { transient_of I GetS ≡ Some IsD }
    ensures modified_copy_asks_for_no_write { transient_of M GetM ≡ None }
    ensures owned_copy_asks_for_a_write { transient_of O GetM ≡ Some SmD }
    ensures exclusive_copy_asks_for_no_write { transient_of E GetM ≡ None }
    ensures shared_copy_asks_for_a_write { transient_of S GetM ≡ Some SmD }
    ensures no_copy_asks_for_a_write { transient_of I GetM ≡ Some ImD }
{}
