// The columns and what the schema says about each. Which columns a table has follows from the first
// column of each table. The definition `column_of` says the same for contracts.

ghost use Rattle.std.specs.Prelude.{◌≡◌, ◌↔◌, ◌-◌, ◌<◌, Some, IsTrue, slice_get};
ghost use Rattle.star_schema.specs.{declared.column.ColumnId.ColumnId, Words.named, declared.column.TheConstants.COLUMNS, Private.Describes.Describes};
ghost use Rattle.star_schema.specs.Schema as spec;

use crate::name::{Named, first_named};
use crate::table::{TableId, column_at};
use std::fmt;

/// The columns, by table, and within a table in the order of a record's fields.
#[derive(Clone, Copy, Debug, PartialEq, Eq)]
pub enum ColumnId {
    DDatekey,
    DDate,
    DDayofweek,
    DMonth,
    DYear,
    DYearmonthnum,
    DYearmonth,
    DDaynuminweek,
    DDaynuminmonth,
    DDaynuminyear,
    DMonthnuminyear,
    DWeeknuminyear,
    DSellingseason,
    DLastdayinweekfl,
    DLastdayinmonthfl,
    DHolidayfl,
    DWeekdayfl,
    CCustkey,
    CName,
    CAddress,
    CCity,
    CNation,
    CRegion,
    CPhone,
    CMktsegment,
    SSuppkey,
    SName,
    SAddress,
    SCity,
    SNation,
    SRegion,
    SPhone,
    PPartkey,
    PName,
    PMfgr,
    PCategory,
    PBrand1,
    PColor,
    PType,
    PSize,
    PContainer,
    LoOrderkey,
    LoLinenumber,
    LoCustkey,
    LoPartkey,
    LoSuppkey,
    LoOrderdate,
    LoOrderpriority,
    LoShippriority,
    LoQuantity,
    LoExtendedprice,
    LoOrdtotalprice,
    LoDiscount,
    LoRevenue,
    LoSupplycost,
    LoTax,
    LoCommitdate,
    LoShipmode,
}

/// All columns in order.
pub static COLUMNS: [ColumnId; 58] = [
    ColumnId::DDatekey,
    ColumnId::DDate,
    ColumnId::DDayofweek,
    ColumnId::DMonth,
    ColumnId::DYear,
    ColumnId::DYearmonthnum,
    ColumnId::DYearmonth,
    ColumnId::DDaynuminweek,
    ColumnId::DDaynuminmonth,
    ColumnId::DDaynuminyear,
    ColumnId::DMonthnuminyear,
    ColumnId::DWeeknuminyear,
    ColumnId::DSellingseason,
    ColumnId::DLastdayinweekfl,
    ColumnId::DLastdayinmonthfl,
    ColumnId::DHolidayfl,
    ColumnId::DWeekdayfl,
    ColumnId::CCustkey,
    ColumnId::CName,
    ColumnId::CAddress,
    ColumnId::CCity,
    ColumnId::CNation,
    ColumnId::CRegion,
    ColumnId::CPhone,
    ColumnId::CMktsegment,
    ColumnId::SSuppkey,
    ColumnId::SName,
    ColumnId::SAddress,
    ColumnId::SCity,
    ColumnId::SNation,
    ColumnId::SRegion,
    ColumnId::SPhone,
    ColumnId::PPartkey,
    ColumnId::PName,
    ColumnId::PMfgr,
    ColumnId::PCategory,
    ColumnId::PBrand1,
    ColumnId::PColor,
    ColumnId::PType,
    ColumnId::PSize,
    ColumnId::PContainer,
    ColumnId::LoOrderkey,
    ColumnId::LoLinenumber,
    ColumnId::LoCustkey,
    ColumnId::LoPartkey,
    ColumnId::LoSuppkey,
    ColumnId::LoOrderdate,
    ColumnId::LoOrderpriority,
    ColumnId::LoShippriority,
    ColumnId::LoQuantity,
    ColumnId::LoExtendedprice,
    ColumnId::LoOrdtotalprice,
    ColumnId::LoDiscount,
    ColumnId::LoRevenue,
    ColumnId::LoSupplycost,
    ColumnId::LoTax,
    ColumnId::LoCommitdate,
    ColumnId::LoShipmode,
];

/// The type of a column's values.
#[derive(Clone, Copy, PartialEq, Eq)]
pub enum Kind {
    Number,
    Text,
}

/// A column of the schema.
#[derive(Clone, Copy)]
pub(crate) struct Column {
    pub(crate) name: &'static str,
    pub(crate) table: TableId,
    pub(crate) kind: Kind,
    pub(crate) references: Option<TableId>,
}

impl Column {
    fn number(name: &'static str, table: TableId) -> Column
        ensures { Describes result (spec.number name.now table) }
    {
        Column {
            name,
            table,
            kind: Kind::Number,
            references: None,
        }
    }

    fn text(name: &'static str, table: TableId) -> Column
        ensures { Describes result (spec.text name.now table) }
    {
        Column {
            name,
            table,
            kind: Kind::Text,
            references: None,
        }
    }

    // A number that refers to the key of another table.
    fn referring(name: &'static str, table: TableId, referred: TableId) -> Column
        ensures { Describes result (spec.referring name.now table referred) }
    {
        Column {
            name,
            table,
            kind: Kind::Number,
            references: Some(referred),
        }
    }
}

impl ColumnId {
    /// Returns the column's entry in the schema.
    #[tactic(auto, unfolding(crate::specs::Schema::column_of))]
    pub(crate) fn describe(self) -> Column
        ensures { Describes result (spec.column_of self) }
    {
        match self {
            ColumnId::DDatekey => Column::number("d_datekey", TableId::Date),
            ColumnId::DDate => Column::text("d_date", TableId::Date),
            ColumnId::DDayofweek => Column::text("d_dayofweek", TableId::Date),
            ColumnId::DMonth => Column::text("d_month", TableId::Date),
            ColumnId::DYear => Column::number("d_year", TableId::Date),
            ColumnId::DYearmonthnum => Column::number("d_yearmonthnum", TableId::Date),
            ColumnId::DYearmonth => Column::text("d_yearmonth", TableId::Date),
            ColumnId::DDaynuminweek => Column::number("d_daynuminweek", TableId::Date),
            ColumnId::DDaynuminmonth => Column::number("d_daynuminmonth", TableId::Date),
            ColumnId::DDaynuminyear => Column::number("d_daynuminyear", TableId::Date),
            ColumnId::DMonthnuminyear => Column::number("d_monthnuminyear", TableId::Date),
            ColumnId::DWeeknuminyear => Column::number("d_weeknuminyear", TableId::Date),
            ColumnId::DSellingseason => Column::text("d_sellingseason", TableId::Date),
            ColumnId::DLastdayinweekfl => Column::number("d_lastdayinweekfl", TableId::Date),
            ColumnId::DLastdayinmonthfl => Column::number("d_lastdayinmonthfl", TableId::Date),
            ColumnId::DHolidayfl => Column::number("d_holidayfl", TableId::Date),
            ColumnId::DWeekdayfl => Column::number("d_weekdayfl", TableId::Date),
            ColumnId::CCustkey => Column::number("c_custkey", TableId::Customer),
            ColumnId::CName => Column::text("c_name", TableId::Customer),
            ColumnId::CAddress => Column::text("c_address", TableId::Customer),
            ColumnId::CCity => Column::text("c_city", TableId::Customer),
            ColumnId::CNation => Column::text("c_nation", TableId::Customer),
            ColumnId::CRegion => Column::text("c_region", TableId::Customer),
            ColumnId::CPhone => Column::text("c_phone", TableId::Customer),
            ColumnId::CMktsegment => Column::text("c_mktsegment", TableId::Customer),
            ColumnId::SSuppkey => Column::number("s_suppkey", TableId::Supplier),
            ColumnId::SName => Column::text("s_name", TableId::Supplier),
            ColumnId::SAddress => Column::text("s_address", TableId::Supplier),
            ColumnId::SCity => Column::text("s_city", TableId::Supplier),
            ColumnId::SNation => Column::text("s_nation", TableId::Supplier),
            ColumnId::SRegion => Column::text("s_region", TableId::Supplier),
            ColumnId::SPhone => Column::text("s_phone", TableId::Supplier),
            ColumnId::PPartkey => Column::number("p_partkey", TableId::Part),
            ColumnId::PName => Column::text("p_name", TableId::Part),
            ColumnId::PMfgr => Column::text("p_mfgr", TableId::Part),
            ColumnId::PCategory => Column::text("p_category", TableId::Part),
            ColumnId::PBrand1 => Column::text("p_brand1", TableId::Part),
            ColumnId::PColor => Column::text("p_color", TableId::Part),
            ColumnId::PType => Column::text("p_type", TableId::Part),
            ColumnId::PSize => Column::number("p_size", TableId::Part),
            ColumnId::PContainer => Column::text("p_container", TableId::Part),
            ColumnId::LoOrderkey => Column::number("lo_orderkey", TableId::Lineorder),
            ColumnId::LoLinenumber => Column::number("lo_linenumber", TableId::Lineorder),
            ColumnId::LoCustkey => Column::referring(
                "lo_custkey",
                TableId::Lineorder,
                TableId::Customer,
            ),
            ColumnId::LoPartkey => Column::referring(
                "lo_partkey",
                TableId::Lineorder,
                TableId::Part,
            ),
            ColumnId::LoSuppkey => Column::referring(
                "lo_suppkey",
                TableId::Lineorder,
                TableId::Supplier,
            ),
            ColumnId::LoOrderdate => Column::referring(
                "lo_orderdate",
                TableId::Lineorder,
                TableId::Date,
            ),
            ColumnId::LoOrderpriority => Column::text("lo_orderpriority", TableId::Lineorder),
            ColumnId::LoShippriority => Column::text("lo_shippriority", TableId::Lineorder),
            ColumnId::LoQuantity => Column::number("lo_quantity", TableId::Lineorder),
            ColumnId::LoExtendedprice => Column::number("lo_extendedprice", TableId::Lineorder),
            ColumnId::LoOrdtotalprice => Column::number("lo_ordtotalprice", TableId::Lineorder),
            ColumnId::LoDiscount => Column::number("lo_discount", TableId::Lineorder),
            ColumnId::LoRevenue => Column::number("lo_revenue", TableId::Lineorder),
            ColumnId::LoSupplycost => Column::number("lo_supplycost", TableId::Lineorder),
            ColumnId::LoTax => Column::number("lo_tax", TableId::Lineorder),
            ColumnId::LoCommitdate => Column::referring(
                "lo_commitdate",
                TableId::Lineorder,
                TableId::Date,
            ),
            ColumnId::LoShipmode => Column::text("lo_shipmode", TableId::Lineorder),
        }
    }
}

impl Named for ColumnId {
    ghost name = { spec.column_name };

    fn name(self) -> &'static str {
        self.describe().name
    }
}

impl fmt::Display for ColumnId {
    ghost output = { λ column. Some (spec.column_name column) };

    fn fmt<W: fmt::Write>(&self, f: &mut fmt::Formatter<W>) -> fmt::Result {
        f.write_str(self.name())
    }
}

/// Returns the column with a name, in lower case, if there is one.
pub fn column_named(name: &[u8]) -> Option<ColumnId>
    ensures first { result ≡ named spec.column_name COLUMNS name.now }
    ensures exactly { (column : ColumnId) → (result ≡ Some column) ↔ (spec.column_name column ≡ name.now) }
{
    first_named(&COLUMNS, name)
}

/// Returns the column's table.
pub fn table_of(column: ColumnId) -> TableId
    ensures { result ≡ spec.table_of column }
{
    column.describe().table
}

/// Returns the type of the column's values.
pub fn kind_of(column: ColumnId) -> Kind
    ensures { result ≡ spec.kind_of column }
{
    column.describe().kind
}

/// Tests whether the column holds texts.
pub fn is_text(column: ColumnId) -> bool
    ensures { IsTrue result ↔ (spec.kind_of column ≡ Kind.Text) }
{
    matches!(kind_of(column), Kind::Text)
}

/// Returns the table whose key the column refers to, if it is a foreign key.
pub fn references(column: ColumnId) -> Option<TableId>
    ensures { result ≡ spec.references column }
{
    column.describe().references
}

/// Returns the position of the column in its table, from 0.
pub fn position_of(column: ColumnId) -> usize
    ensures index { result ≡ spec.position_of column }
    ensures there { slice_get (spec.columns_of (spec.table_of column)) result ≡ Some column }
{
    let first = column_at(table_of(column), 0);
    column as usize - first as usize
}
