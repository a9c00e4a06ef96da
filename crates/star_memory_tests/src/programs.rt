// Texts of programs, as `to_text` writes them.

/// Counts the lines that are priced above the average: two of the sample.
pub(crate) const ABOVE_AVERAGE: &str = concat!(
    "star program 1\nregisters 8\ngroup 0 plain : sum count\ngroup 1 plain : count\n",
    "scan lineorder r0\n  r1 = load lo_extendedprice r0\n  put 0 : r1\nend\n",
    "r2 = read 0 0 0\nr3 = read 0 1 0\n",
    "scan lineorder r4\n  r5 = load lo_extendedprice r4\n  r6 = mul r5 r3\n  r7 = lt r2 r6\n",
    "  keep r7\n  put 1 :\nend\nreport 1\nshow n aggregate 0\n",
);

/// Sums the discounts of one year.
pub(crate) const DISCOUNTED_REVENUE: &str = concat!(
    "star program 1\nregisters 15\ngroup 0 plain : sum\nscan lineorder r0\n",
    "  r1 = load lo_orderdate r0\n  r2 = find date r1\n  r3 = load d_year r2\n  r4 = const 1993\n",
    "  r5 = eq r3 r4\n  keep r5\n",
    "  r6 = load lo_discount r0\n  r7 = const 1\n  r8 = const 4\n  r9 = within r6 r7 r8\n  keep r9\n",
    "  r10 = load lo_quantity r0\n  r11 = const 25\n  r12 = lt r10 r11\n  keep r12\n",
    "  r13 = load lo_extendedprice r0\n  r14 = mul r13 r6\n  put 0 : r14\nend\n",
    "report 0\nshow revenue aggregate 0\n",
);

/// A query of the same.
pub(crate) const DISCOUNTS: &str = concat!(
    "select sum(lo_extendedprice*lo_discount) as revenue from lineorder, date ",
    "where lo_orderdate = d_datekey and d_year = 1993 and lo_discount between 1 and 3 ",
    "and lo_quantity < 25",
);

/// The revenue by year and region, in every subset of the two.
pub(crate) const REVENUES: &str = concat!(
    "select d_year, s_region, sum(lo_revenue) as revenue, count(*) as n ",
    "from lineorder, date, supplier where lo_orderdate = d_datekey and lo_suppkey = s_suppkey ",
    "group by cube(d_year, s_region) order by revenue desc",
);

/// The program of that query.
pub(crate) const PROGRAM_OF_REVENUES: &str = concat!(
    "star program 1\nregisters 8\ngroup 0 cube number s_region : sum count\nscan lineorder r0\n",
    "  r1 = load lo_orderdate r0\n  r2 = find date r1\n  r3 = load d_year r2\n",
    "  r4 = load lo_suppkey r0\n  r5 = find supplier r4\n  r6 = load s_region r5\n",
    "  r7 = load lo_revenue r0\n  put 0 r3 r6 : r7\nend\n",
    "report 0\nshow d_year key 0\nshow s_region key 1\nshow revenue aggregate 0\n",
    "show n aggregate 1\nsort aggregate 0 descending\n",
);

/// Their report over the sample.
pub(crate) const OF_REVENUES: &str = concat!(
    "d_year|s_region|revenue|n\nALL|ALL|7045|5\nALL|AMERICA|4475|3\n1997|ALL|3630|2\n",
    "1997|AMERICA|3000|1\n1993|ALL|2920|2\nALL|EUROPE|2570|2\n1993|EUROPE|1940|1\n",
    "1993|AMERICA|980|1\n1997|EUROPE|630|1\n1994|AMERICA|495|1\n1994|ALL|495|1\n",
);

/// The sums of the eighth powers of prices, which leave 64 bits.
pub(crate) const POWERS: &str = concat!(
    "star program 1\nregisters 5\ngroup 0 plain : sum\nscan lineorder r0\n",
    "  r1 = load lo_extendedprice r0\n  r2 = mul r1 r1\n  r3 = mul r2 r2\n  r4 = mul r3 r3\n",
    "  put 0 : r4\nend\nreport 0\nshow s aggregate 0\n",
);

/// A look-up of dates by quantities.
pub(crate) const NOT_A_KEY: &str = concat!(
    "star program 1\nregisters 3\ngroup 0 plain : count\nscan lineorder r0\n",
    "  r1 = load lo_quantity r0\n  r2 = find date r1\n  put 0 :\nend\n",
    "report 0\nshow n aggregate 0\n",
);
