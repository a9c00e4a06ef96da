// Help on partials.

use crate::help::Help;

pub(crate) const PARTIAL: Help = Help {
    name: "partial",
    called: "star partial",
    about: "Makes the partials of a query over parts of lineorder, for `star merge`",
    after: concat!(
        "The four dimensions and the file lineorder.tbl.PART are loaded; PART 0 is lineorder.tbl. The partial has\n",
        "the facts of these tables, and the query's groups without CUBE, ROLLUP and ORDER BY (docs/SCALING.md).\n",
        "\nWithout --to there is one PART, and its partial is printed. With --to the dimensions are loaded once for 1\n",
        "to 1000 of them. Each partial is written whole or not at all; the first error ends the command, and a line\n",
        "about a part begins with its number.\n",
        "\nExamples:\n",
        "  star partial examples/data examples/revenue.sql 0 >0.partial\n",
        "  mkdir partials\n",
        "  star partial examples/data examples/revenue.sql 0 --to partials\n",
        "\nExit status:\n",
        "  0  the partials were written\n",
        "  2  the arguments are not a command\n",
        "  3  a table file can't be loaded\n",
        "  4  the file is not a query\n",
        "  6  a file or TARGET can't be read, or a partial can't be written\n",
        "  7  memory was refused",
    ),
};

pub(crate) const MERGE: Help = Help {
    name: "merge",
    called: "star merge",
    about: "Prints the report of a query over all parts of lineorder, merged from partials",
    after: concat!(
        "No table is read. The output is that of `star query` over a folder with all parts: the report, the two\n",
        "lines of standard error, or the refusal. FILE must have the same bytes as for `star partial`. Partials\n",
        "may come in any order. They are refused if they are over other dimensions, or if the keys (lo_orderkey,\n",
        "lo_linenumber) of two of them overlap. With --distinct overlaps are allowed: the caller promises that no\n",
        "order line is in two parts.\n",
        "\nExample:\n  star merge examples/revenue.sql 0.partial\n",
        "\nExit status:\n",
        "  0  the report was written\n",
        "  1  the query was refused: a number may leave 64 bits, or there are too many rows\n",
        "  2  the arguments are not a command\n",
        "  3  all parts together have too many rows\n",
        "  4  the file is not a query\n",
        "  6  a file can't be read, or the report or a line of standard error can't be written\n",
        "  7  memory was refused\n",
        "  8  a file is not a partial of the query, or can't be merged with the others",
    ),
};
