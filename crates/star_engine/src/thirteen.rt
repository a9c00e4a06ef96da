// The thirteen queries of the Star Schema Benchmark.

ghost use Rattle.std.specs.Prelude.{◌≡◌};
ghost use Rattle.star_engine.specs.Thirteen as spec;

/// A query of the Star Schema Benchmark (revision 3, section 3), by its flight and its number in
/// the flight.
#[derive(Clone, Copy, Debug, PartialEq, Eq)]
pub enum BenchmarkQuery {
    Q11,
    Q12,
    Q13,
    Q21,
    Q22,
    Q23,
    Q31,
    Q32,
    Q33,
    Q34,
    Q41,
    Q42,
    Q43,
}

/// The thirteen queries of the benchmark in order.
pub const THIRTEEN: [BenchmarkQuery; 13] = [
    BenchmarkQuery::Q11,
    BenchmarkQuery::Q12,
    BenchmarkQuery::Q13,
    BenchmarkQuery::Q21,
    BenchmarkQuery::Q22,
    BenchmarkQuery::Q23,
    BenchmarkQuery::Q31,
    BenchmarkQuery::Q32,
    BenchmarkQuery::Q33,
    BenchmarkQuery::Q34,
    BenchmarkQuery::Q41,
    BenchmarkQuery::Q42,
    BenchmarkQuery::Q43,
];

impl BenchmarkQuery {
    /// Returns its name, such as `Q1.1`.
    #[tactic(auto, unfolding(crate::specs::Thirteen::query_name))]
    pub fn name(self) -> &'static str
        ensures { result.now ≡ spec.query_name self }
    {
        match self {
            BenchmarkQuery::Q11 => "Q1.1",
            BenchmarkQuery::Q12 => "Q1.2",
            BenchmarkQuery::Q13 => "Q1.3",
            BenchmarkQuery::Q21 => "Q2.1",
            BenchmarkQuery::Q22 => "Q2.2",
            BenchmarkQuery::Q23 => "Q2.3",
            BenchmarkQuery::Q31 => "Q3.1",
            BenchmarkQuery::Q32 => "Q3.2",
            BenchmarkQuery::Q33 => "Q3.3",
            BenchmarkQuery::Q34 => "Q3.4",
            BenchmarkQuery::Q41 => "Q4.1",
            BenchmarkQuery::Q42 => "Q4.2",
            BenchmarkQuery::Q43 => "Q4.3",
        }
    }

    /// Returns its text on one line, in this project's dialect.
    #[tactic(auto, unfolding(crate::specs::Thirteen::query_text))]
    pub fn text(self) -> &'static str
        ensures { result.now ≡ spec.query_text self }
    {
        match self {
            BenchmarkQuery::Q11 => concat!(
                "select sum(lo_extendedprice*lo_discount) as revenue from lineorder, date ",
                "where lo_orderdate = d_datekey and d_year = 1993 and lo_discount between 1 ",
                "and 3 and lo_quantity < 25;",
            ),
            BenchmarkQuery::Q12 => concat!(
                "select sum(lo_extendedprice*lo_discount) as revenue from lineorder, date ",
                "where lo_orderdate = d_datekey and d_yearmonthnum = 199401 and lo_discount ",
                "between 4 and 6 and lo_quantity between 26 and 35;",
            ),
            BenchmarkQuery::Q13 => concat!(
                "select sum(lo_extendedprice*lo_discount) as revenue from lineorder, date ",
                "where lo_orderdate = d_datekey and d_weeknuminyear = 6 and d_year = 1994 ",
                "and lo_discount between 5 and 7 and lo_quantity between 26 and 35;",
            ),
            BenchmarkQuery::Q21 => concat!(
                "select sum(lo_revenue), d_year, p_brand1 from lineorder, date, part, ",
                "supplier where lo_orderdate = d_datekey and lo_partkey = p_partkey and ",
                "lo_suppkey = s_suppkey and p_category = 'MFGR#12' and s_region = 'AMERICA' ",
                "group by d_year, p_brand1 order by d_year, p_brand1;",
            ),
            BenchmarkQuery::Q22 => concat!(
                "select sum(lo_revenue), d_year, p_brand1 from lineorder, date, part, ",
                "supplier where lo_orderdate = d_datekey and lo_partkey = p_partkey and ",
                "lo_suppkey = s_suppkey and p_brand1 between 'MFGR#2221' and 'MFGR#2228' and ",
                "s_region = 'ASIA' group by d_year, p_brand1 order by d_year, p_brand1;",
            ),
            BenchmarkQuery::Q23 => concat!(
                "select sum(lo_revenue), d_year, p_brand1 from lineorder, date, part, ",
                "supplier where lo_orderdate = d_datekey and lo_partkey = p_partkey and ",
                "lo_suppkey = s_suppkey and p_brand1 = 'MFGR#2221' and s_region = 'EUROPE' ",
                "group by d_year, p_brand1 order by d_year, p_brand1;",
            ),
            BenchmarkQuery::Q31 => concat!(
                "select c_nation, s_nation, d_year, sum(lo_revenue) as revenue from ",
                "customer, lineorder, supplier, date where lo_custkey = c_custkey and ",
                "lo_suppkey = s_suppkey and lo_orderdate = d_datekey and c_region = 'ASIA' ",
                "and s_region = 'ASIA' and d_year >= 1992 and d_year <= 1997 group by ",
                "c_nation, s_nation, d_year order by d_year asc, revenue desc;",
            ),
            BenchmarkQuery::Q32 => concat!(
                "select c_city, s_city, d_year, sum(lo_revenue) as revenue from customer, ",
                "lineorder, supplier, date where lo_custkey = c_custkey and lo_suppkey = ",
                "s_suppkey and lo_orderdate = d_datekey and c_nation = 'UNITED STATES' and ",
                "s_nation = 'UNITED STATES' and d_year >= 1992 and d_year <= 1997 group by ",
                "c_city, s_city, d_year order by d_year asc, revenue desc;",
            ),
            BenchmarkQuery::Q33 => concat!(
                "select c_city, s_city, d_year, sum(lo_revenue) as revenue from customer, ",
                "lineorder, supplier, date where lo_custkey = c_custkey and lo_suppkey = ",
                "s_suppkey and lo_orderdate = d_datekey and (c_city = 'UNITED KI1' or c_city ",
                "= 'UNITED KI5') and (s_city = 'UNITED KI1' or s_city = 'UNITED KI5') and ",
                "d_year >= 1992 and d_year <= 1997 group by c_city, s_city, d_year order by ",
                "d_year asc, revenue desc;",
            ),
            BenchmarkQuery::Q34 => concat!(
                "select c_city, s_city, d_year, sum(lo_revenue) as revenue from customer, ",
                "lineorder, supplier, date where lo_custkey = c_custkey and lo_suppkey = ",
                "s_suppkey and lo_orderdate = d_datekey and (c_city = 'UNITED KI1' or c_city ",
                "= 'UNITED KI5') and (s_city = 'UNITED KI1' or s_city = 'UNITED KI5') and ",
                "d_yearmonth = 'Dec1997' group by c_city, s_city, d_year order by d_year ",
                "asc, revenue desc;",
            ),
            BenchmarkQuery::Q41 => concat!(
                "select d_year, c_nation, sum(lo_revenue - lo_supplycost) as profit from ",
                "date, customer, supplier, part, lineorder where lo_custkey = c_custkey and ",
                "lo_suppkey = s_suppkey and lo_partkey = p_partkey and lo_orderdate = ",
                "d_datekey and c_region = 'AMERICA' and s_region = 'AMERICA' and (p_mfgr = ",
                "'MFGR#1' or p_mfgr = 'MFGR#2') group by d_year, c_nation order by d_year, ",
                "c_nation;",
            ),
            BenchmarkQuery::Q42 => concat!(
                "select d_year, s_nation, p_category, sum(lo_revenue - lo_supplycost) as ",
                "profit from date, customer, supplier, part, lineorder where lo_custkey = ",
                "c_custkey and lo_suppkey = s_suppkey and lo_partkey = p_partkey and ",
                "lo_orderdate = d_datekey and c_region = 'AMERICA' and s_region = 'AMERICA' ",
                "and (d_year = 1997 or d_year = 1998) and (p_mfgr = 'MFGR#1' or p_mfgr = ",
                "'MFGR#2') group by d_year, s_nation, p_category order by d_year, s_nation, ",
                "p_category;",
            ),
            BenchmarkQuery::Q43 => concat!(
                "select d_year, s_city, p_brand1, sum(lo_revenue - lo_supplycost) as profit ",
                "from date, customer, supplier, part, lineorder where lo_custkey = c_custkey ",
                "and lo_suppkey = s_suppkey and lo_partkey = p_partkey and lo_orderdate = ",
                "d_datekey and c_region = 'AMERICA' and s_nation = 'UNITED STATES' and ",
                "(d_year = 1997 or d_year = 1998) and p_category = 'MFGR#14' group by ",
                "d_year, s_city, p_brand1 order by d_year, s_city, p_brand1;",
            ),
        }
    }
}
