//! Lines and the text of their trees.

use cy_lexer::lex;
use cy_parser::{parse, show};
use std::alloc::Global;
use std::process::Abort;
use std::test::Fail;

/// Lines, each with the text of its tree.
const SPELLINGS: &str = r#"// keywords, names, texts, white space and comments
rEtUrN tRuE, fAlSe, nUlL aS n => RETURN TRUE AS `tRuE`, FALSE AS `fAlSe`, NULL AS `n`
MATCH (n:Match:WITH {return: 1, As: 2})-[:Or|:null*]->() RETURN n.Order AS `x ``y` => MATCH (`n`:`Match`:`WITH`{`return`:1, `As`:2})-[:`Or`|`null`*1..]->() RETURN (`n`.`Order`) AS `x ``y`
RETURN "a'b\\c\"d" AS t => RETURN 'a\'b\\c"d' AS `t`
RETURN 0 AS x ; => RETURN 0 AS `x`
// columns
MATCH (n) RETURN n, (n), (( n )), n.k, ( n.k ), (1) => MATCH (`n`) RETURN `n` AS `n`, `n` AS `n`, `n` AS `n`, (`n`.`k`) AS `n.k`, (`n`.`k`) AS `( n.k )`, 1 AS `(1)`
WITH (n) RETURN `a b` => WITH `n` AS `n` RETURN `a b` AS `a b`
// projections
RETURN 1 AS x ORDER BY a, b ASC, c ascending, d DESC, e descending => RETURN 1 AS `x` ORDER BY `a`, `b`, `c`, `d` DESC, `e` DESC
RETURN 1 AS x SKIP 0 => RETURN 1 AS `x` SKIP 0
RETURN 1 AS x LIMIT 9223372036854775807 => RETURN 1 AS `x` LIMIT 9223372036854775807
// patterns
MATCH (a)--(b)-->(c)<--(d)<-->(e)-[]-(f)-[]->(g)<-[]-(h)<-[]->(i) RETURN 1 AS x => MATCH (`a`)-[]-(`b`)-[]->(`c`)<-[]-(`d`)-[]-(`e`)-[]-(`f`)-[]->(`g`)<-[]-(`h`)-[]-(`i`) RETURN 1 AS `x`
MATCH (a) < - [ r ] - (b), (c) - - > (:A:B) RETURN 1 AS x => MATCH (`a`)<-[`r`]-(`b`), (`c`)-[]->(:`A`:`B`) RETURN 1 AS `x`
MATCH ()-[*]-()-[*2]-()-[*2..]-()-[*..3]-()-[*2..3]-()-[*..]-() RETURN 1 AS x => MATCH ()-[*1..]-()-[*2..2]-()-[*2..]-()-[*1..3]-()-[*2..3]-()-[*1..]-() RETURN 1 AS `x`
MATCH ()-[*0]-()-[*0..0]-()-[*65535..65535]-()-[* 1 .. 2]-()-[*0..]-() RETURN 1 AS x => MATCH ()-[*0..0]-()-[*0..0]-()-[*65535..65535]-()-[*1..2]-()-[*0..]-() RETURN 1 AS `x`
MATCH (n {})-[{}]-()-[:A|B|:C]-()-[r:A*1..2{k:1}]->({k: -1, k: []}) RETURN 1 AS x => MATCH (`n`{})-[{}]-()-[:`A`|`B`|`C`]-()-[`r`:`A`*1..2{`k`:1}]->({`k`:-1, `k`:[]}) RETURN 1 AS `x`
// operators
RETURN a OR b XOR c AND NOT d = e + f * -g AS x => RETURN (`a` OR (`b` XOR (`c` AND (NOT (`d` = (`e` + (`f` * (-(`g`))))))))) AS `x`
RETURN a * b + c < d AND e XOR f OR g AS x => RETURN ((((((`a` * `b`) + `c`) < `d`) AND `e`) XOR `f`) OR `g`) AS `x`
RETURN a - b - c + d AS x, a / b % c * d AS y => RETURN (((`a` - `b`) - `c`) + `d`) AS `x`, (((`a` / `b`) % `c`) * `d`) AS `y`
RETURN a AND b AND c AS x, a XOR b XOR c AS y, a OR b OR c AS z => RETURN ((`a` AND `b`) AND `c`) AS `x`, ((`a` XOR `b`) XOR `c`) AS `y`, ((`a` OR `b`) OR `c`) AS `z`
RETURN a - (b - c) AS x, (a OR b) AND c AS y, (a + b) * c AS z => RETURN (`a` - (`b` - `c`)) AS `x`, ((`a` OR `b`) AND `c`) AS `y`, ((`a` + `b`) * `c`) AS `z`
RETURN a = b <> c < d <= e > f >= g AS x, (a = b) = c AS y, a = (b = c) AS z => RETURN (`a` = `b` <> `c` < `d` <= `e` > `f` >= `g`) AS `x`, ((`a` = `b`) = `c`) AS `y`, (`a` = (`b` = `c`)) AS `z`
RETURN a + b IS NULL IS NOT NULL AS x, a IN b + c CONTAINS d AS y => RETURN (((`a` + `b`) IS NULL) IS NOT NULL) AS `x`, ((`a` IN (`b` + `c`)) CONTAINS `d`) AS `y`
RETURN a STARTS WITH b ENDS WITH c AS x, NOT a IS NULL AS y, a = b IS NULL AS z => RETURN ((`a` STARTS WITH `b`) ENDS WITH `c`) AS `x`, (NOT (`a` IS NULL)) AS `y`, (`a` = (`b` IS NULL)) AS `z`
RETURN NOT NOT a AND b AS x, -a * b AS y, -a.k AS z => RETURN ((NOT (NOT `a`)) AND `b`) AS `x`, ((-(`a`)) * `b`) AS `y`, (-((`a`.`k`))) AS `z`
// a `-` before a number
RETURN -5 AS a, - 5 AS b, -(5) AS c, --5 AS d, +5 AS e, +-5 AS f, -x AS g, -+x AS h => RETURN -5 AS `a`, -5 AS `b`, (-(5)) AS `c`, (-(-5)) AS `d`, (+(5)) AS `e`, (+(-5)) AS `f`, (-(`x`)) AS `g`, (-((+(`x`)))) AS `h`
RETURN a-5 AS a, a--5 AS b, -5+6 AS c, -9223372036854775808 AS d, -/* */9223372036854775808 AS e, 1 - -9223372036854775808 AS f => RETURN (`a` - 5) AS `a`, (`a` - -5) AS `b`, (-5 + 6) AS `c`, -9223372036854775808 AS `d`, -9223372036854775808 AS `e`, (1 - -9223372036854775808) AS `f`
// what stands like a pattern, as operators
MATCH (a) WHERE (a)--(b) OR a RETURN (a)<--(b) AS x, (a)-[b] AS y => MATCH (`a`) WHERE ((`a` - (-(`b`))) OR `a`) RETURN (`a` < (-((-(`b`))))) AS `x`, (`a` - [`b`]) AS `y`
// calls, properties, labels, lists and CASE
RETURN COUNT(*) AS a, Count ( distinct x , y ) AS b, `FÄB`() AS c, f(g(1)) AS d, exists(x.k) AS e => RETURN `count`(*) AS `a`, `count`(DISTINCT `x`, `y`) AS `b`, `fÄb`() AS `c`, `f`(`g`(1)) AS `d`, `exists`((`x`.`k`)) AS `e`
RETURN x.k.l AS a, (x).k AS b, x:A:B AS c, x.k:A AS d, f(x).k AS e, f(x):A AS g, (a + b).k AS h => RETURN ((`x`.`k`).`l`) AS `a`, (`x`.`k`) AS `b`, (`x`:`A`:`B`) AS `c`, ((`x`.`k`):`A`) AS `d`, (`f`(`x`).`k`) AS `e`, (`f`(`x`):`A`) AS `g`, ((`a` + `b`).`k`) AS `h`
RETURN (1).k AS a, (-5).k AS b, ([1]):A AS c, ('a').return AS d, (TRUE).k AS e, (NULL):A AS f, (CASE WHEN a THEN b END).k AS g => RETURN ((1).`k`) AS `a`, ((-5).`k`) AS `b`, (([1]):`A`) AS `c`, (('a').`return`) AS `d`, ((TRUE).`k`) AS `e`, ((NULL):`A`) AS `f`, ((CASE WHEN `a` THEN `b` END).`k`) AS `g`
RETURN [ ] AS a, [1,[2],'x'] AS b, [a OR b] AS c => RETURN [] AS `a`, [1, [2], 'x'] AS `b`, [(`a` OR `b`)] AS `c`
RETURN case when a then b when c then d else e end AS x, CASE WHEN a THEN b END + 1 AS y => RETURN (CASE WHEN `a` THEN `b` WHEN `c` THEN `d` ELSE `e` END) AS `x`, ((CASE WHEN `a` THEN `b` END) + 1) AS `y`
// clauses
MATCH (n) SET n.k=1,n:A:B,n.set=n.k REMOVE n.k,n:A RETURN DISTINCT n => MATCH (`n`) SET `n`.`k` = 1, `n`:`A`:`B`, `n`.`set` = (`n`.`k`) REMOVE `n`.`k`, `n`:`A` RETURN DISTINCT `n` AS `n`
match(n)detach delete n,m; => MATCH (`n`) DETACH DELETE `n`, `m`
DELETE n => DELETE `n`
CREATE (n:A {k: 1}), (m) => CREATE (`n`:`A`{`k`:1}), (`m`)
MATCH (n) SET n.k = 1 => MATCH (`n`) SET `n`.`k` = 1
SET n:A ; => SET `n`:`A`
REMOVE n.k => REMOVE `n`.`k`
CREATE (n) REMOVE n:A:B ; => CREATE (`n`) REMOVE `n`:`A`:`B`
OPTIONAL MATCH (n), (m) WHERE n = m UNWIND [1] AS u WITH DISTINCT n, u AS v ORDER BY v DESC SKIP 1 LIMIT 2 WHERE v = 1 CREATE (n)-[:T]->(:L {k: v}), (m) WITH n MATCH (n) RETURN n => OPTIONAL MATCH (`n`), (`m`) WHERE (`n` = `m`) UNWIND [1] AS `u` WITH DISTINCT `n` AS `n`, `u` AS `v` ORDER BY `v` DESC SKIP 1 LIMIT 2 WHERE (`v` = 1) CREATE (`n`)-[:`T`]->(:`L`{`k`:`v`}), (`m`) WITH `n` AS `n` MATCH (`n`) RETURN `n` AS `n`
// paths as conditions, and several queries
MATCH (a) WHERE (a)-->(b) RETURN a => MATCH (`a`) WHERE (`a`)-[]->(`b`) RETURN `a` AS `a`
MATCH (a) WHERE NOT (a)-[:T*1..2]->({k: 1})<--() RETURN a => MATCH (`a`) WHERE NOT ((`a`)-[:`T`*1..2]->({`k`:1})<-[]-()) RETURN `a` AS `a`
MATCH (a) WHERE (a)--() AND a.k = 1 AND NOT ((a)-[r]-(b)) AND a RETURN a => MATCH (`a`) WHERE (((`a`.`k`) = 1) AND `a`) AND (`a`)-[]-() AND NOT ((`a`)-[`r`]-(`b`)) RETURN `a` AS `a`
WITH a WHERE (a)--() RETURN 1 AS x => WITH `a` AS `a` WHERE (`a`)-[]-() RETURN 1 AS `x`
RETURN 1 AS x UNION RETURN 2 AS x; => RETURN 1 AS `x` UNION RETURN 2 AS `x`
MATCH (n) RETURN n union all RETURN 1 AS n Union All RETURN 2 AS n => MATCH (`n`) RETURN `n` AS `n` UNION ALL RETURN 1 AS `n` UNION ALL RETURN 2 AS `n`"#;

/// A line with a LF in it, and a text with characters that are escaped there and stand as they are in the tree's text.
const CONTROLS: [(&str, &str); 2] = [
    (
        "/* a */ RETURN\t1 // b\n+/* c */2 // d",
        "RETURN (1 + 2) AS `1 // b\n+/* c */2`",
    ),
    (
        "RETURN '\\b\\f\\n\\r\\t\\u0041\\U0001F600\\'\\\\\\\"' AS t",
        "RETURN '\u{8}\u{c}\n\r\tA\u{1F600}\\'\\\\\"' AS `t`",
    ),
];

/// The text of the tree of a line is this, and is that of its own tree.
fn expect_tree(rt: &impl Abort, alloc: Global, line: &str, text: &str) -> Result<(), Fail> {
    for spelling in [line, text] {
        let tokens = lex(alloc, spelling)?;
        let statement = parse(alloc, tokens.as_slice(), spelling)?;
        assert!(rt; show(alloc, &statement)?.as_str() == text, "{line}");
    }
    Ok(())
}

#[test]
fn spellings_and_their_trees(rt: HostRuntime) -> Result<(), Fail> {
    for case in SPELLINGS.lines() {
        if let Some((line, text)) = case.split_once(" => ") {
            expect_tree(&rt, rt.alloc(), line, text)?;
        }
    }
    for (line, text) in CONTROLS {
        expect_tree(&rt, rt.alloc(), line, text)?;
    }
    Ok(())
}
