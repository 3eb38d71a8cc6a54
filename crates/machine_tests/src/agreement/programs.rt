//! Programs, as texts.

/// Numbers, truth values and characters.
pub(crate) const ARITHMETIC: [&str; 15] = [
    "MODULE A; IMPORT Out; BEGIN Out.Int(7FFFFFFFH + 1, 0) END A.",
    "MODULE B; IMPORT Out; VAR x: INTEGER; BEGIN x := -7; Out.Int(x DIV 2, 0); Out.Char(\" \"); Out.Int(x MOD 2, 0); Out.Char(\" \"); Out.Int(-7 DIV 2, 0); Out.Ln END B.",
    "MODULE A; IMPORT Out; VAR x, y: INTEGER; BEGIN FOR x := -5 TO 5 DO FOR y := 1 TO 3 DO Out.Int(x DIV y, 4); Out.Int(x MOD y, 4) END END END A.",
    "MODULE A; IMPORT Out; VAR x: INTEGER; BEGIN x := 80000000H; Out.Int(x, 0); Out.Int(-x, 0); Out.Int(ABS(x), 0); Out.Int(x - 1, 0); Out.Int(x * x, 0); Out.Int(x DIV 3, 0); Out.Int(x MOD 3, 0) END A.",
    "MODULE A; IMPORT Out; VAR x: INTEGER; BEGIN x := 65537; Out.Int(x * x, 12); Out.Int(x * x * x, 12); Out.Int(x * 65535 + x, 12) END A.",
    "MODULE A; IMPORT Out; VAR i, x: INTEGER; BEGIN x := 0A5000001H; FOR i := 0 TO 31 BY 3 DO Out.Int(LSL(x, i), 12); Out.Int(ASR(x, i), 12); Out.Int(ROR(x, i), 12) END END A.",
    "MODULE A; IMPORT Out; VAR i: INTEGER; BEGIN FOR i := -3 TO 3 DO IF ODD(i) THEN Out.Int(i, 3) ELSE Out.Int(ABS(i), 3) END END END A.",
    "MODULE A; IMPORT Out; VAR b, c: BYTE; x: INTEGER; BEGIN b := 255; c := 7; x := b + c; Out.Int(x, 0); x := b * b; Out.Int(x, 6); INC(x, b); Out.Int(x, 6); x := -b; Out.Int(x, 6); c := b; Out.Int(c DIV 2, 6) END A.",
    "MODULE A; IMPORT Out; VAR b: BYTE; x: INTEGER; BEGIN b := 3; x := 3; IF b = x THEN Out.Char(\"a\") END; IF b <= x THEN Out.Char(\"b\") END; IF x < b THEN Out.Char(\"c\") END; IF b # 4 THEN Out.Char(\"d\") END; IF b >= 3 THEN Out.Char(\"e\") END; IF b > x THEN Out.Char(\"f\") END END A.",
    "MODULE A; IMPORT Out; VAR p, q: BOOLEAN; BEGIN p := TRUE; q := p & ~FALSE OR FALSE; IF q = p THEN Out.Char(\"s\") END; IF q # (1 < 2) THEN Out.Char(\"d\") END; q := ~q; IF q OR (p & ~q) THEN Out.Char(\"t\") END; Out.Int(ORD(p), 2); Out.Int(ORD(q), 2) END A.",
    "MODULE A; IMPORT Out; VAR n: INTEGER; PROCEDURE T(): BOOLEAN; BEGIN INC(n) RETURN TRUE END T; PROCEDURE F(): BOOLEAN; BEGIN INC(n, 10) RETURN FALSE END F; BEGIN IF F() & T() THEN END; Out.Int(n, 4); IF T() OR F() THEN Out.Int(n, 4) END; IF (T() & F()) OR T() & ~F() THEN Out.Int(n, 4) END END A.",
    "MODULE A; IMPORT Out; CONST k = 7; c = \"x\"; d = 41X; t = k > 3; s = \"word\"; n = -k * 2 + 1; VAR ch: CHAR; BEGIN ch := c; Out.Char(ch); Out.Char(d); IF t THEN Out.Int(n, 4) END; Out.String(s); Out.Int(ORD(d), 3); Out.Int(ORD(c), 4); Out.Char(CHR(ORD(ch) + 1)) END A.",
    "MODULE A; IMPORT Out; VAR c, d: CHAR; i: INTEGER; BEGIN c := \"a\"; d := 0X; FOR i := 97 TO 100 DO d := CHR(i); IF c < d THEN Out.Char(\"<\") ELSIF c = d THEN Out.Char(\"=\") ELSE Out.Char(\">\") END; IF d >= \"c\" THEN Out.Char(d) END END END A.",
    "MODULE A; IMPORT Out; VAR x: INTEGER; BEGIN x := 5; Out.Int(-x + 3, 0); Out.Int(+x - 3, 3); Out.Int(-(x + 3) * 2, 5); Out.Int(- 7 DIV 2, 4); Out.Int((-7) DIV 2, 4); Out.Int(2 - 3 - 4, 4); Out.Int(100 DIV 7 MOD 4 * 5, 4) END A.",
    "MODULE A; IMPORT Out; VAR x: INTEGER; BEGIN x := 0FFFFFFFFH; Out.Int(x, 0); x := 7FFFFFFFH; INC(x); Out.Int(x, 12); DEC(x); Out.Int(x, 12); DEC(x, -1); Out.Int(x, 12); INC(x, x); Out.Int(x, 12) END A.",
];

/// Statements that choose and repeat.
pub(crate) const CONTROL: [&str; 21] = [
    "MODULE L; IMPORT Out; VAR i: INTEGER; BEGIN WHILE i < 3 DO Out.Int(i, 2); i := i + 1 END END L.",
    "MODULE K; IMPORT Out; VAR i: INTEGER; BEGIN FOR i := 3 TO 1 BY -1 DO Out.Int(i, 2) END; Out.Int(i, 3); Out.Ln END K.",
    "MODULE G; IMPORT Out; VAR x: INTEGER; BEGIN WHILE TRUE DO INC(x) END; Out.Int(x, 0) END G.",
    "MODULE A; IMPORT Out; VAR i: INTEGER; BEGIN FOR i := 0 TO 6 DO IF i < 2 THEN Out.Char(\"a\") ELSIF i = 3 THEN Out.Char(\"b\") ELSIF i = 3 THEN Out.Char(\"c\") ELSIF i > 5 THEN Out.Char(\"d\") ELSE Out.Char(\"e\") END END END A.",
    "MODULE A; IMPORT Out; VAR i: INTEGER; BEGIN IF i = 1 THEN Out.Char(\"a\") ELSIF i = 2 THEN Out.Char(\"b\") END; IF i # 0 THEN ELSE Out.Char(\"c\") END; IF TRUE THEN END END A.",
    "MODULE A; IMPORT Out; VAR a, b: INTEGER; BEGIN a := 36; b := 60; WHILE a > b DO a := a - b ELSIF b > a DO b := b - a END; Out.Int(a, 0) END A.",
    "MODULE A; IMPORT Out; VAR i, j: INTEGER; BEGIN i := 3; WHILE i > 0 DO DEC(i); j := 2 ELSIF j > 0 DO DEC(j); Out.Int(j, 2) ELSIF i = 0 DO i := -1; Out.Char(\"!\") END; Out.Int(i, 3); Out.Int(j, 3) END A.",
    "MODULE A; IMPORT Out; VAR i: INTEGER; BEGIN REPEAT Out.Int(i, 2); INC(i) UNTIL i >= 3; REPEAT INC(i) UNTIL TRUE; Out.Int(i, 3) END A.",
    "MODULE A; IMPORT Out; VAR i, n: INTEGER; BEGIN n := 3; FOR i := 0 TO n DO Out.Int(i, 2); IF i = 1 THEN n := 5 END END; Out.Int(i, 4) END A.",
    "MODULE A; IMPORT Out; VAR i: INTEGER; BEGIN FOR i := 0 TO 10 DO Out.Int(i, 3); IF i = 2 THEN i := 7 END END; FOR i := 5 TO 4 DO Out.Char(\"x\") END; Out.Int(i, 4); FOR i := 1 TO 10 BY 4 DO Out.Int(i, 3) END; FOR i := 3 TO 3 BY -2 DO Out.Int(i, 3) END END A.",
    "MODULE A; IMPORT Out; VAR i, j, s: INTEGER; BEGIN FOR i := 1 TO 4 DO FOR j := i TO 4 DO IF ODD(i + j) THEN INC(s, i * j) ELSE WHILE s > 20 DO DEC(s, 7) END END END END; Out.Int(s, 0) END A.",
    "MODULE A; IMPORT Out; VAR x: INTEGER; BEGIN FOR x := 0 TO 9 DO CASE x OF 0: Out.Char(\"z\") | 1, 3: Out.Char(\"o\") | 4 .. 6, 8: Out.Char(\"r\") | 2: | 7: Out.Char(\"7\") | 9: Out.Ln END END END A.",
    "MODULE A; IMPORT Out; VAR c: CHAR; i: INTEGER; b: BYTE; BEGIN FOR i := 96 TO 102 DO c := CHR(i); CASE c OF \"a\" .. \"c\": Out.Char(c) | \"e\", 60X: Out.Char(\"-\") | \"d\": | 66X: Out.Char(\"f\") END END; b := 2; CASE b OF 1: Out.Char(\"1\") | 2: Out.Char(\"2\") END END A.",
    "MODULE A; IMPORT Out; VAR x: INTEGER; BEGIN x := -1; CASE x + 1 OF 0: CASE x + 3 OF 2: Out.Char(\"n\") | 5: | 7: END | 1: END END A.",
    "MODULE A; IMPORT Out; VAR n, k: INTEGER; BEGIN n := 27; WHILE n # 1 DO INC(k); IF ODD(n) THEN n := 3 * n + 1 ELSE n := n DIV 2 END END; Out.Int(k, 0) END A.",
    "MODULE A; IMPORT Out; VAR i: INTEGER; BEGIN i := 2147483645; REPEAT INC(i); Out.Int(i, 12) UNTIL i < 0 END A.",
    "MODULE A; VAR i: INTEGER; BEGIN FOR i := 1 TO 0 DO END; WHILE FALSE DO INC(i) ELSIF FALSE DO INC(i) END; ;; END A.",
    "MODULE P; IMPORT Out; CONST n = 50; VAR s: ARRAY n OF BOOLEAN; i, j: INTEGER; BEGIN FOR i := 2 TO n - 1 DO IF ~s[i] THEN Out.Int(i, 3); j := i * i; WHILE j < n DO s[j] := TRUE; INC(j, i) END END END END P.",
    "MODULE A; IMPORT Out; VAR a: ARRAY 4 OF INTEGER; i, s: INTEGER; PROCEDURE P(VAR n: INTEGER; VAR b: ARRAY OF INTEGER); VAR k: INTEGER; BEGIN k := 3; WHILE k >= 0 DO INC(n, k); DEC(b[k], k + 1); INC(b[0]); DEC(k) END END P; BEGIN WHILE i < 40 DO INC(a[i MOD 4], i); DEC(s, 3); INC(i) END; REPEAT DEC(i, 7); INC(s, i) UNTIL i < -20; P(s, a); FOR i := 0 TO 3 DO Out.Int(a[i], 5) END; Out.Int(s, 6) END A.",
    "MODULE A; IMPORT Out; VAR i, s: INTEGER; PROCEDURE P(x: INTEGER): INTEGER; VAR r: INTEGER; BEGIN CASE x MOD 8 OF 0: r := 1 | 1, 2: r := x | 3 .. 5: INC(r, x) | 7: DEC(r) END RETURN r END P; BEGIN FOR i := 0 TO 30 DO CASE i MOD 5 OF 0: INC(s) | 1: | 2 .. 3: s := s + P(i * 8 + i MOD 6) | 4: DEC(s, i) END END; Out.Int(s, 0); Out.Int(P(6), 0) END A.",
    "MODULE A; IMPORT Out; VAR a, b: ARRAY 3 OF INTEGER; s: ARRAY 4 OF CHAR; i, n: INTEGER; BEGIN s := \"ab\"; WHILE i < 50 DO a[i MOD 3] := i; n := n + a[0]; b := a; n := n + b[1]; i := i + 1; ASSERT(n >= 0); IF s = \"ab\" THEN n := n + 1; n := n * 3 MOD 1000 END END; Out.Int(n, 0) END A.",
];

/// Arrays, records and strings.
pub(crate) const DATA: [&str; 13] = [
    "MODULE A; IMPORT Out; VAR a: ARRAY 5 OF INTEGER; i: INTEGER; BEGIN FOR i := 0 TO 4 DO a[i] := i * i END; FOR i := 4 TO 0 BY -1 DO Out.Int(a[i], 3) END; INC(a[2], a[3]); DEC(a[a[1]]); Out.Int(a[2], 4); Out.Int(a[1], 4); Out.Int(LEN(a), 4) END A.",
    "MODULE A; IMPORT Out; VAR a: ARRAY 3, 4 OF INTEGER; i, j: INTEGER; BEGIN FOR i := 0 TO 2 DO FOR j := 0 TO 3 DO a[i, j] := i * 10 + j END END; a[0] := a[2]; a[1][3] := a[0][1]; FOR i := 0 TO 2 DO Out.Int(a[i, 1], 3); Out.Int(a[i][3], 3) END; Out.Int(LEN(a), 2); Out.Int(LEN(a[1]), 2) END A.",
    "MODULE A; IMPORT Out; TYPE R = RECORD x, y: INTEGER; s: ARRAY 4 OF CHAR; q: RECORD z: BYTE; w: BOOLEAN END END; VAR r, t: R; a: ARRAY 2 OF R; BEGIN r.x := 1; r.y := 2; r.s := \"ab\"; r.q.z := 9; r.q.w := TRUE; t := r; r.x := 5; a[1] := t; a[0] := r; a[1].y := 7; t := a[1]; Out.Int(t.x, 0); Out.Int(t.y, 2); Out.String(t.s); Out.Int(a[0].x, 2); Out.Int(t.q.z, 2); Out.Int(ORD(a[1].q.w), 2); Out.Int(ORD(r.q.w), 2) END A.",
    "MODULE A; IMPORT Out; VAR a, b: ARRAY 3 OF INTEGER; BEGIN a[0] := 1; a[1] := 2; a[2] := 3; b := a; a := a; b[1] := 9; a := b; Out.Int(a[0], 2); Out.Int(a[1], 2); Out.Int(b[2], 2) END A.",
    "MODULE A; IMPORT Out; VAR s, t: ARRAY 8 OF CHAR; i: INTEGER; BEGIN s := \"abcdefg\"; Out.String(s); s := \"xy\"; FOR i := 0 TO 7 DO Out.Int(ORD(s[i]), 4) END; t := s; t[2] := \"!\"; Out.String(t); s := \"\"; Out.String(s); Out.Int(LEN(t), 2) END A.",
    "MODULE A; IMPORT Out; VAR s, t: ARRAY 4 OF CHAR; u: ARRAY 6 OF CHAR; BEGIN s := \"abc\"; t := \"abd\"; u := \"abc\"; IF s < t THEN Out.Char(\"1\") END; IF s = u THEN Out.Char(\"2\") END; IF u <= s THEN Out.Char(\"3\") END; IF t > \"abc\" THEN Out.Char(\"4\") END; IF \"abc\" = s THEN Out.Char(\"5\") END; IF s # \"ab\" THEN Out.Char(\"6\") END; IF s >= \"abcd\" THEN Out.Char(\"7\") END; IF \"a\" < s THEN Out.Char(\"8\") END; t[0] := 0X; IF t = \"\" THEN Out.Char(\"9\") END END A.",
    "MODULE A; IMPORT Out; VAR s: ARRAY 2 OF CHAR; t: ARRAY 3 OF CHAR; BEGIN s[0] := \"a\"; s[1] := \"b\"; t := \"ab\"; IF s = t THEN Out.Char(\"=\") END; Out.String(s); Out.String(t); t[2] := \"c\"; IF s < t THEN Out.Char(\"<\") END; Out.String(t) END A.",
    "MODULE A; IMPORT Out; VAR a: ARRAY 4 OF INTEGER; n: INTEGER; PROCEDURE F(): INTEGER; BEGIN INC(n) RETURN n END F; BEGIN a[F()] := F() * 10; a[F()] := a[F() - 3] + F(); INC(a[F() - 6], F()); Out.Int(a[0], 3); Out.Int(a[1], 4); Out.Int(a[2], 4); Out.Int(a[3], 4); Out.Int(n, 3) END A.",
    "MODULE A; IMPORT Out; TYPE M = ARRAY 2, 2 OF INTEGER; VAR m, k: M; PROCEDURE Square(VAR a: M); VAR b: M; i, j, l: INTEGER; BEGIN b := a; FOR i := 0 TO 1 DO FOR j := 0 TO 1 DO a[i, j] := 0; FOR l := 0 TO 1 DO INC(a[i, j], b[i, l] * b[l, j]) END END END END Square; BEGIN m[0, 0] := 1; m[0, 1] := 1; m[1, 0] := 1; k := m; Square(m); Square(m); Out.Int(m[0, 0], 0); Out.Int(m[0, 1], 3); Out.Int(k[1, 1], 3) END A.",
    "MODULE A; IMPORT Out; TYPE T = RECORD a: ARRAY 2 OF RECORD b: INTEGER; c: ARRAY 2 OF BYTE END END; VAR t: ARRAY 2 OF T; i: INTEGER; BEGIN FOR i := 0 TO 1 DO t[i].a[1 - i].c[i] := 200 + i; t[i].a[i].b := -i END; t[0].a[0] := t[1].a[1]; Out.Int(t[0].a[0].b, 3); Out.Int(t[0].a[1].c[0], 4); Out.Int(t[1].a[0].c[1], 4); Out.Int(t[0].a[0].c[1], 4) END A.",
    "MODULE A; IMPORT Out; VAR a: ARRAY 300 OF BYTE; i, s: INTEGER; BEGIN FOR i := 0 TO 255 DO a[i] := i END; FOR i := 0 TO LEN(a) - 1 DO INC(s, a[i]) END; Out.Int(s, 0) END A.",
    "MODULE A; IMPORT Out; VAR a: ARRAY 6 OF INTEGER; i, j, t: INTEGER; BEGIN a[0] := 5; a[1] := -3; a[2] := 9; a[3] := 0; a[4] := 9; a[5] := 1; FOR i := 0 TO 4 DO FOR j := 0 TO 4 - i DO IF a[j] > a[j + 1] THEN t := a[j]; a[j] := a[j + 1]; a[j + 1] := t END END END; FOR i := 0 TO 5 DO Out.Int(a[i], 3) END END A.",
    "MODULE A; IMPORT Out; TYPE T = RECORD a: INTEGER END; U = RECORD (T) b: INTEGER END; W = RECORD (U) c: INTEGER END; VAR t: T; u: U; w: W; PROCEDURE P(VAR r: T; v: U); BEGIN r.a := r.a + v.b END P; BEGIN w.a := 1; w.b := 2; w.c := 3; u := w; t := u; P(w, w); P(t, u); Out.Int(t.a, 3); Out.Int(u.a, 3); Out.Int(u.b, 3); Out.Int(w.a, 3); Out.Int(w.b, 3); Out.Int(w.c, 3) END A.",
];

/// Records that extend others, with tests and guards of what VAR parameters name.
pub(crate) const EXTENSIONS: [&str; 20] = [
    "MODULE V; IMPORT Out; TYPE T = RECORD a: INTEGER END; U = RECORD (T) b: INTEGER END; VAR t: T; u: U; PROCEDURE P(VAR r: T); BEGIN IF r IS U THEN r(U).b := r.a + 1 END; r.a := 9 END P; BEGIN u.a := 4; P(u); P(t); Out.Int(u.a, 0); Out.Char(\" \"); Out.Int(u.b, 0); Out.Char(\" \"); u.a := 3; t := u; Out.Int(t.a, 0); Out.Ln END V.",
    "MODULE W; TYPE T = RECORD a: INTEGER END; U = RECORD (T) b: INTEGER END; VAR t: T; PROCEDURE P(VAR r: T); BEGIN r(U).b := 1 END P; BEGIN P(t) END W.",
    "MODULE A; IMPORT Out; TYPE T = RECORD a: INTEGER END; U = RECORD (T) b: INTEGER END; W = RECORD (U) c: INTEGER END; VAR t: T; u: U; w: W; PROCEDURE P(VAR r: T); BEGIN IF r IS W THEN r(U)(W).c := 7 END END P; BEGIN P(w); Out.Int(w.c, 0); P(u); Out.Int(u.b, 0) END A.",
    "MODULE A; IMPORT Out; TYPE T = RECORD a: INTEGER END; U = RECORD (T) b: INTEGER END; W = RECORD (U) c: INTEGER END; VAR t: T; u: U; w: W; PROCEDURE Q(VAR r: T); BEGIN IF r IS W THEN r(W).c := 3 END END Q; PROCEDURE P(VAR r: U); BEGIN Q(r) END P; BEGIN P(w); Out.Int(w.c, 0); P(u) END A.",
    "MODULE A; IMPORT Out; TYPE T = RECORD a: INTEGER END; U = RECORD (T) b: INTEGER END; W = RECORD (U) c: INTEGER END; VAR t: T; u: U; w: W; PROCEDURE Q(VAR r: U); BEGIN r.b := 8 END Q; PROCEDURE P(VAR r: T); BEGIN Q(r(U)) END P; BEGIN P(u); Out.Int(u.b, 0); P(t) END A.",
    "MODULE A; IMPORT Out; TYPE T = RECORD a: INTEGER END; U = RECORD (T) b: INTEGER END; W = RECORD (U) c: INTEGER END; VAR t: T; u: U; w: W; PROCEDURE P(VAR r: T); BEGIN r(U) := w END P; BEGIN w.b := 4; w.c := 5; P(u); Out.Int(u.b, 0); P(t) END A.",
    "MODULE A; IMPORT Out; TYPE T = RECORD END; U = RECORD (T) b: INTEGER END; VAR t: T; u: U; PROCEDURE P(VAR r: T); BEGIN IF r IS U THEN r(U).b := 2 END END P; BEGIN P(u); P(t); t := u; Out.Int(u.b, 0) END A.",
    "MODULE A; IMPORT Out; TYPE T = RECORD a: INTEGER END; U = RECORD (T) b: INTEGER END; W = RECORD (U) c: INTEGER END; VAR t: T; u: U; w: W; a: ARRAY 2 OF U; v: RECORD f: T END; PROCEDURE P(VAR r: T); BEGIN IF r IS U THEN Out.Int(1, 0) ELSE Out.Int(0, 0) END END P; BEGIN P(a[1]); P(v.f); P(u); P(w) END A.",
    "MODULE A; IMPORT Out; TYPE T = RECORD a: INTEGER END; U = RECORD (T) b: INTEGER END; W = RECORD (U) c: INTEGER END; VAR t: T; u: U; w: W; PROCEDURE Kind(VAR r: T): INTEGER; VAR k: INTEGER; BEGIN IF r IS W THEN k := 3 ELSIF r IS U THEN k := 2 ELSE k := 1 END RETURN k END Kind; BEGIN Out.Int(Kind(t) * 100 + Kind(u) * 10 + Kind(w), 0) END A.",
    "MODULE A; IMPORT Out; TYPE T = RECORD a: INTEGER END; U = RECORD (T) b: INTEGER END; W = RECORD (U) c: INTEGER END; VAR t: T; u: U; w: W; PROCEDURE P(VAR r: T; VAR s: U); BEGIN r(U).b := s.b + 1; s.a := r.a + 2; r.a := r.a * s.b END P; BEGIN u.a := 3; u.b := 4; P(u, u); Out.Int(u.a, 0); Out.Int(u.b, 2); P(w, u); Out.Int(w.b, 3); P(t, u) END A.",
    "MODULE A; IMPORT Out; TYPE T = RECORD a: INTEGER END; U = RECORD (T) b: INTEGER END; W = RECORD (U) c: INTEGER END; VAR t: T; u: U; w: W; PROCEDURE P(VAR r: T; n: INTEGER); BEGIN IF n > 0 THEN IF r IS W THEN INC(r(W).c, n) ELSE INC(r.a) END; P(r, n - 1) END END P; BEGIN P(w, 4); P(u, 3); Out.Int(w.c, 0); Out.Int(u.a, 3) END A.",
    "MODULE A; IMPORT Out; TYPE T = RECORD a: INTEGER END; U = RECORD (T) b: INTEGER END; W = RECORD (U) c: INTEGER END; VAR t: T; u: U; w: W; PROCEDURE P(VAR r: T); BEGIN WHILE (r IS U) & (r(U).b < 3) DO INC(r(U).b); DEC(r.a, 2) END END P; BEGIN P(u); P(t); P(w); Out.Int(u.b, 0); Out.Int(w.a, 4); Out.Int(t.a, 2) END A.",
    "MODULE A; IMPORT Out; TYPE T = RECORD n: INTEGER END; U = RECORD (T) f: ARRAY 3 OF INTEGER; s: ARRAY 4 OF CHAR END; VAR t: T; u: U; PROCEDURE F(): INTEGER; BEGIN Out.Char(\"f\") RETURN 1 END F; PROCEDURE P(VAR r: T); BEGIN r(U).s := \"ab\"; r(U).f[F()] := 5; Out.String(r(U).s); r(U).f[r.n] := 6 END P; BEGIN P(u); u.n := 3; P(u) END A.",
    "MODULE A; IMPORT Out; TYPE T = RECORD a: INTEGER END; U = RECORD (T) b: INTEGER END; W = RECORD (U) c: INTEGER END; VAR t: T; u: U; w: W; PROCEDURE F(): INTEGER; BEGIN Out.Char(\"f\") RETURN 1 END F; PROCEDURE P(VAR r: T); BEGIN Out.Char(\"p\"); r(U).b := F(); Out.Int(r(U).b, 0) END P; BEGIN P(u); P(t) END A.",
    "MODULE A; IMPORT Out; TYPE T = RECORD a: INTEGER END; U = RECORD (T) b: INTEGER END; W = RECORD (U) c: INTEGER END; VAR t: T; u: U; w: W; PROCEDURE P(VAR r: T); VAR x: U; BEGIN x := r(U); x.b := x.b + 1; Out.Int(x.b, 0); t := r(U); Out.Int(t.a, 2); r(U) := x END P; BEGIN w.a := 5; w.b := 6; w.c := 7; P(w); Out.Int(w.b, 2); Out.Int(w.c, 2) END A.",
    "MODULE A; IMPORT Out; TYPE T = RECORD a: INTEGER END; U = RECORD (T) b: INTEGER END; W = RECORD (U) c: INTEGER END; VAR t: T; u: U; w: W; PROCEDURE P(VAR r: T); VAR p: BOOLEAN; BEGIN p := r IS U; IF ~p THEN Out.Char(\"t\") END; IF (r IS U) = (r IS W) THEN Out.Char(\"=\") ELSE Out.Char(\"#\") END; IF (r IS T) OR p THEN Out.Char(\"r\") END END P; BEGIN P(t); P(u); P(w) END A.",
    "MODULE A; IMPORT Out; TYPE T = RECORD a: INTEGER END; U = RECORD (T) xs: ARRAY 2 OF T END; W = RECORD (U) y: U END; VAR w: W; PROCEDURE Q(VAR r: T); BEGIN IF r IS W THEN Out.Char(\"w\") ELSIF r IS U THEN Out.Char(\"u\") ELSE Out.Char(\"t\") END; INC(r.a) END Q; PROCEDURE P(VAR r: T); BEGIN Q(r(U).xs[1]); Q(r(W).y); Q(r(W).y.xs[0]); Q(r) END P; BEGIN P(w); Out.Int(w.xs[1].a, 0); Out.Int(w.y.a, 0); Out.Int(w.y.xs[0].a, 0); Out.Int(w.a, 0) END A.",
    "MODULE A; IMPORT Out; TYPE T = RECORD a: INTEGER END; U = RECORD (T) b: INTEGER END; W = RECORD (U) c: INTEGER END; VAR t: T; u: U; w: W; PROCEDURE Inner(VAR r: U): BOOLEAN; RETURN r IS W END Inner; PROCEDURE Middle(VAR r: T): BOOLEAN; RETURN (r IS U) & Inner(r(U)) END Middle; PROCEDURE Local; VAR x: W; y: U; BEGIN Out.Int(ORD(Middle(x)), 0); Out.Int(ORD(Middle(y)), 0); IF Middle(x) THEN x.c := 1 END; Out.Int(x.c, 0) END Local; BEGIN Local; Out.Int(ORD(Middle(t)), 2) END A.",
    "MODULE A; IMPORT Out; TYPE T = RECORD a: INTEGER END; U = RECORD (T) b: INTEGER END; W = RECORD (U) c: INTEGER END; VAR t: T; u: U; w: W; PROCEDURE Set(VAR x: INTEGER; y: INTEGER); BEGIN x := y END Set; PROCEDURE P(VAR r: T; x: T); BEGIN Set(r(U).b, x.a); Set(r(W).c, r(U).b + 1); r := x END P; BEGIN t.a := 6; P(w, t); Out.Int(w.a, 0); Out.Int(w.b, 2); Out.Int(w.c, 2); P(u, w) END A.",
    "MODULE A; IMPORT In, Out; TYPE T = RECORD a: INTEGER END; U = RECORD (T) b: INTEGER END; W = RECORD (U) c: INTEGER END; VAR t: T; u: U; w: W; x: ARRAY 3 OF W; i: INTEGER; PROCEDURE P(VAR r: T; VAR all: ARRAY OF W); BEGIN all[1].a := all[1].a + 10; IF r IS W THEN r(W).c := all[1].a + r.a END END P; BEGIN FOR i := 0 TO 2 DO x[i].a := i; P(x[i], x) END; FOR i := 0 TO 2 DO Out.Int(x[i].c, 4) END END A.",
];

/// Procedures and what is passed to them.
pub(crate) const CALLS: [&str; 18] = [
    "MODULE E; IMPORT Out; VAR x: INTEGER; PROCEDURE P(VAR a, b: INTEGER); BEGIN a := 1; b := b + a END P; BEGIN x := 5; P(x, x); Out.Int(x, 0) END E.",
    "MODULE S; IMPORT Out; VAR a: ARRAY 2, 3 OF INTEGER; i: INTEGER; PROCEDURE P(VAR r: ARRAY OF INTEGER; VAR x: INTEGER); BEGIN r[2] := 7; x := x + LEN(r); i := 0; r[0] := 5 END P; BEGIN i := 1; P(a[i], a[i, 2]); Out.Int(a[1, 2], 0); Out.Char(\" \"); Out.Int(a[1, 0], 0); Out.Char(\" \"); Out.Int(a[0, 0], 0); Out.Ln END S.",
    "MODULE R; IMPORT Out; VAR d: INTEGER; PROCEDURE P; BEGIN INC(d); P END P; BEGIN P; Out.Int(d, 0) END R.",
    "MODULE A; IMPORT Out; PROCEDURE F(n: INTEGER): INTEGER; VAR r: INTEGER; BEGIN IF n <= 1 THEN r := 1 ELSE r := n * F(n - 1) END RETURN r END F; BEGIN Out.Int(F(5), 0); Out.Int(F(1), 3) END A.",
    "MODULE A; IMPORT Out; PROCEDURE Fib(n: INTEGER): INTEGER; VAR r: INTEGER; BEGIN r := n; IF n > 1 THEN r := Fib(n - 1) + Fib(n - 2) END RETURN r END Fib; BEGIN Out.Int(Fib(7), 0) END A.",
    "MODULE A; IMPORT Out; PROCEDURE Ack(m, n: INTEGER): INTEGER; VAR r: INTEGER; BEGIN IF m = 0 THEN r := n + 1 ELSIF n = 0 THEN r := Ack(m - 1, 1) ELSE r := Ack(m - 1, Ack(m, n - 1)) END RETURN r END Ack; BEGIN Out.Int(Ack(2, 2), 0) END A.",
    "MODULE A; IMPORT Out; PROCEDURE Move(n, a, b, c: INTEGER); BEGIN IF n > 0 THEN Move(n - 1, a, c, b); Out.Int(a, 2); Out.Int(c, 2); Move(n - 1, b, a, c) END END Move; BEGIN Move(3, 1, 2, 3) END A.",
    "MODULE A; IMPORT Out; VAR g: INTEGER; PROCEDURE P(a: INTEGER; VAR b: INTEGER; c: BOOLEAN; d: CHAR; e: BYTE); BEGIN a := a + 1; b := b + a; c := ~c; d := CHR(ORD(d) + 1); e := e + 1; Out.Int(a, 2); Out.Int(ORD(c), 2); Out.Char(d); Out.Int(e, 4) END P; BEGIN g := 4; P(g, g, FALSE, \"q\", 254); Out.Int(g, 3); P(g * 2, g, g > 3, CHR(g + 60), g); Out.Int(g, 4) END A.",
    "MODULE A; IMPORT Out; TYPE R = RECORD x: INTEGER; a: ARRAY 3 OF INTEGER END; VAR r: R; PROCEDURE Sees(v: R; w: ARRAY OF INTEGER); BEGIN r.x := 9; r.a[1] := 8; Out.Int(v.x, 2); Out.Int(w[1], 2); Out.Int(v.a[2], 2) END Sees; BEGIN r.x := 1; r.a[2] := 3; Sees(r, r.a) END A.",
    "MODULE A; IMPORT Out; PROCEDURE W(s: ARRAY OF CHAR); BEGIN Out.Int(LEN(s), 3); Out.String(s); IF LEN(s) > 1 THEN Out.Int(ORD(s[LEN(s) - 1]), 2) END END W; PROCEDURE V(s: ARRAY OF CHAR); BEGIN W(s) END V; BEGIN W(\"\"); W(\"a\"); W(\"hello\"); V(\"xyz\"); W(41X) END A.",
    "MODULE A; IMPORT Out; TYPE T = ARRAY 5 OF CHAR; VAR t: T; PROCEDURE W(s: T); BEGIN Out.String(s); Out.Int(ORD(s[4]), 2) END W; BEGIN W(\"abc\"); W(\"abcd\"); t := \"zz\"; W(t); W(\"abc\"); W(\"\") END A.",
    "MODULE A; IMPORT Out; TYPE W = ARRAY 3 OF INTEGER; PROCEDURE Sum(m: ARRAY OF W): INTEGER; VAR i, j, s: INTEGER; BEGIN FOR i := 0 TO LEN(m) - 1 DO FOR j := 0 TO LEN(m[i]) - 1 DO INC(s, m[i, j]) END END RETURN s END Sum; PROCEDURE Fill(VAR m: ARRAY OF W; n: INTEGER); BEGIN m[1, 2] := n; m[0, 0] := n + Sum(m) END Fill; PROCEDURE Run; VAR m: ARRAY 2 OF W; BEGIN Fill(m, 4); Out.Int(Sum(m), 0); Out.Int(m[0][0], 3) END Run; BEGIN Run; Run END A.",
    "MODULE A; IMPORT Out; PROCEDURE Outer(n: INTEGER): INTEGER; VAR x: INTEGER; PROCEDURE Inner(m: INTEGER): INTEGER; VAR k: INTEGER; PROCEDURE Deep(q: INTEGER): INTEGER; RETURN q * q END Deep; BEGIN k := k + Deep(m) RETURN k * 2 END Inner; BEGIN x := Inner(n) + Inner(n + 1) RETURN x END Outer; BEGIN Out.Int(Outer(3), 0) END A.",
    "MODULE A; IMPORT Out; PROCEDURE L(): INTEGER; VAR a: ARRAY 3 OF INTEGER; i: INTEGER; BEGIN INC(a[1], 5); INC(i) RETURN a[0] + a[1] + i END L; BEGIN Out.Int(L(), 0); Out.Int(L() + L(), 3) END A.",
    "MODULE A; IMPORT Out; VAR b: ARRAY 2 OF BYTE; c: CHAR; t: BOOLEAN; PROCEDURE B(x: INTEGER): BYTE; RETURN x END B; PROCEDURE C(i: INTEGER): CHAR; RETURN CHR(i) END C; PROCEDURE T(x: INTEGER): BOOLEAN; RETURN x > 2 END T; PROCEDURE V(VAR y: BYTE); BEGIN y := y + 1 END V; BEGIN b[1] := B(7); V(b[1]); Out.Int(b[1], 0); c := C(65); Out.Char(c); t := T(b[1]); IF t & T(3) THEN Out.Char(\"t\") END; b[0] := B(256) END A.",
    "MODULE A; IMPORT Out; TYPE R = RECORD a, b: INTEGER END; VAR r, q: R; PROCEDURE Swap(VAR x, y: R); VAR t: R; BEGIN t := x; x := y; y := t END Swap; PROCEDURE Two(VAR x: R; VAR f: INTEGER); BEGIN f := f + 1; x.a := x.a * 2; f := f + x.a END Two; BEGIN r.a := 1; q.a := 2; q.b := 3; Swap(r, q); Swap(r, r); Out.Int(r.a, 2); Out.Int(r.b, 2); Out.Int(q.a, 2); Two(r, r.a); Out.Int(r.a, 3) END A.",
    "MODULE A; IMPORT Out; VAR a: ARRAY 4 OF INTEGER; i: INTEGER; PROCEDURE P(VAR x: INTEGER; VAR r: ARRAY OF INTEGER); BEGIN i := 3; x := 7; r[i] := x + 1; x := r[i] + LEN(r) END P; BEGIN i := 1; P(a[i], a); Out.Int(a[1], 2); Out.Int(a[3], 3); P(a[i], a); Out.Int(a[3], 3); Out.Int(a[1], 3) END A.",
    "MODULE A; IMPORT Out; PROCEDURE Gcd(a, b: INTEGER): INTEGER; VAR r: INTEGER; BEGIN IF b = 0 THEN r := a ELSE r := Gcd(b, a MOD b) END RETURN r END Gcd; BEGIN Out.Int(Gcd(Gcd(60, 48), Gcd(36, 90)), 0) END A.",
];

/// Loops on what VAR and structured parameters stand for.
pub(crate) const NAMES: [&str; 4] = [
    "MODULE A; IMPORT Out; VAR s, t: ARRAY 8 OF CHAR; PROCEDURE Length(VAR s: ARRAY OF CHAR): INTEGER; VAR i: INTEGER; BEGIN i := 0; WHILE (i < LEN(s)) & (s[i] # 0X) DO i := i + 1 END RETURN i END Length; PROCEDURE Up(VAR s: ARRAY OF CHAR); VAR i: INTEGER; BEGIN FOR i := 0 TO LEN(s) - 1 DO IF (s[i] >= \"a\") & (s[i] <= \"z\") THEN s[i] := CHR(ORD(s[i]) - 32) END END END Up; BEGIN s := \"abcXyz\"; Up(s); Out.String(s); Out.Int(Length(s), 2); t := \"\"; Out.Int(Length(t), 2); t[7] := \"q\"; Up(t); Out.Int(ORD(t[7]), 4) END A.",
    "MODULE A; IMPORT Out; TYPE P = RECORD x, y, z: INTEGER END; VAR ps: ARRAY 3 OF P; i, j: INTEGER; PROCEDURE Move(VAR p: P; d: INTEGER); BEGIN p.x := p.x + d; p.y := p.y - d; p.z := p.z + p.x END Move; BEGIN FOR j := 1 TO 4 DO FOR i := 0 TO 2 DO Move(ps[i], i) END END; FOR i := 0 TO 2 DO Out.Int(ps[i].x, 4); Out.Int(ps[i].y, 4); Out.Int(ps[i].z, 4) END END A.",
    "MODULE A; IMPORT Out; VAR n: INTEGER; PROCEDURE Add(VAR a: ARRAY OF INTEGER; VAR sum: INTEGER); VAR i: INTEGER; BEGIN i := 0; WHILE i < LEN(a) DO sum := sum + a[i]; a[i] := sum; i := i + 1 END END Add; PROCEDURE Both(VAR a: ARRAY OF INTEGER); VAR s: INTEGER; b: ARRAY 3 OF INTEGER; BEGIN Add(a, s); b[1] := s; Add(b, s); Add(a, a[1]); n := s END Both; PROCEDURE Own; VAR c: ARRAY 4 OF INTEGER; i: INTEGER; BEGIN FOR i := 0 TO 3 DO c[i] := i END; Both(c); FOR i := 0 TO 3 DO Out.Int(c[i], 4) END END Own; BEGIN Own; Own; Out.Int(n, 4) END A.",
    "MODULE T; VAR a: ARRAY 3 OF INTEGER; PROCEDURE Fill(VAR r: ARRAY OF INTEGER; n: INTEGER); VAR i: INTEGER; BEGIN i := 0; WHILE i < n DO\nr[i] := i; i := i + 1 END END Fill; BEGIN Fill(a, 3);\nFill(a, 5) END T.",
];

/// Programs that trap.
pub(crate) const TRAPS: [&str; 22] = [
    "MODULE F; VAR a: ARRAY 3 OF INTEGER; i: INTEGER; BEGIN i := 3; a[i] := 1 END F.",
    "MODULE D; IMPORT Out; VAR x: INTEGER; BEGIN Out.Int(5, 0); x := 1 DIV x END D.",
    "MODULE T; VAR x: INTEGER; BEGIN x := 300; CASE x OF 1: END END T.",
    "MODULE T; VAR x: INTEGER; BEGIN x := 300; ASSERT(x = 1) END T.",
    "MODULE T; VAR x: INTEGER; c: CHAR; BEGIN x := 300; c := CHR(x) END T.",
    "MODULE T; VAR x: INTEGER; BEGIN x := 300; x := LSL(x, 32) END T.",
    "MODULE T; VAR s: ARRAY 3 OF CHAR; PROCEDURE Q(VAR t: ARRAY OF CHAR); BEGIN t := \"abc\" END Q; BEGIN Q(s) END T.",
    "MODULE T; VAR x: INTEGER; b: BYTE; BEGIN x := 300; b := x END T.",
    "MODULE T; IMPORT Out; VAR s: ARRAY 4 OF CHAR; PROCEDURE Q(VAR t: ARRAY OF CHAR); BEGIN t := \"abc\" END Q; BEGIN Q(s); Out.String(s) END T.",
    "MODULE T; IMPORT Out; VAR a: ARRAY 2, 2 OF INTEGER; i: INTEGER; BEGIN FOR i := 0 TO 2 DO Out.Int(i, 2); a[1,\ni] := i END END T.",
    "MODULE T; IMPORT Out; VAR a: ARRAY 2 OF INTEGER; i: INTEGER; BEGIN i := -1;\nOut.Int(a[\ni], 2) END T.",
    "MODULE T; IMPORT Out; VAR x: INTEGER; BEGIN x := -3; Out.Int(7\nMOD x, 0) END T.",
    "MODULE T; VAR b: BYTE; PROCEDURE P(c: BYTE); END P; BEGIN b := 255; P(b);\nP(\nb + 1) END T.",
    "MODULE T; VAR b: BYTE; PROCEDURE F(): BYTE;\nRETURN -\n1 END F; BEGIN b := F() END T.",
    "MODULE T; VAR a: ARRAY 3 OF INTEGER; i: INTEGER; PROCEDURE F(): INTEGER; BEGIN ASSERT(i = 0); INC(i) RETURN 5 END F; BEGIN a[0] := F();\na[F()] := F() END T.",
    "MODULE T; VAR a: ARRAY 3 OF INTEGER; PROCEDURE F(): INTEGER; BEGIN ASSERT(FALSE) RETURN 5 END F; BEGIN a[5 - a[0]] := F() END T.",
    "MODULE T; IMPORT Out; VAR x: INTEGER; PROCEDURE P(n: INTEGER); BEGIN IF n = 0 THEN\nx := x DIV x ELSE Out.Int(n, 2); P(n - 1) END END P; BEGIN P(3) END T.",
    "MODULE T; VAR x: INTEGER; BEGIN x := ASR(5, -1) END T.",
    "MODULE T; VAR x: INTEGER; BEGIN x := -1; x := ROR(5,\nx) END T.",
    "MODULE T; VAR c: CHAR; BEGIN c := CHR(255); c := CHR(ORD(c) + 1) END T.",
    "MODULE T; VAR x: INTEGER; BEGIN WHILE x < 5 DO INC(x); ASSERT(x < 4) END END T.",
    "MODULE T; VAR r: RECORD b: ARRAY 2 OF BYTE END; i: INTEGER; BEGIN REPEAT r.b[1] := r.b[1] + 100 UNTIL FALSE END T.",
];

/// Programs that read: each with its lines, the empty one for none to be had.
pub(crate) const READS: [(&str, &[&str]); 14] = [
    (
        "MODULE H; IMPORT In, Out; VAR a, b: INTEGER; BEGIN In.Int(a); In.Int(b); Out.Int(a + b, 0); Out.Ln END H.",
        &["12 34"],
    ),
    (
        "MODULE H; IMPORT In, Out; VAR a, b: INTEGER; BEGIN In.Int(a); In.Int(b); Out.Int(a + b, 0); Out.Ln END H.",
        &["12", " ", "  34"],
    ),
    (
        "MODULE H; IMPORT In, Out; VAR a, b: INTEGER; BEGIN In.Int(a); In.Int(b); Out.Int(a + b, 0); Out.Ln END H.",
        &[],
    ),
    (
        "MODULE H; IMPORT In, Out; VAR a, b: INTEGER; BEGIN In.Int(a); In.Int(b); Out.Int(a + b, 0); Out.Ln END H.",
        &["12", ""],
    ),
    (
        "MODULE J; IMPORT In, Out; VAR x: INTEGER; BEGIN x := 7; In.Int(x); IF ~In.Done THEN Out.Int(x, 0) END END J.",
        &[""],
    ),
    (
        "MODULE I; IMPORT In, Out; VAR n, s: ARRAY 8 OF CHAR; c: CHAR; BEGIN In.Name(n); In.String(s); In.Char(c); Out.String(n); Out.Char(\"/\"); Out.String(s); Out.Char(\"/\"); Out.Int(ORD(c), 0) END I.",
        &["ab \"c d\" x"],
    ),
    (
        "MODULE I; IMPORT In, Out; VAR x: INTEGER; c: CHAR; BEGIN x := 5; c := \"a\"; In.Int(x); IF ~In.Done THEN Out.Int(x, 0) END; In.Char(c); Out.Char(c); In.Open; In.Char(c); Out.Char(c) END I.",
        &["99999999999", "z"],
    ),
    (
        "MODULE I; IMPORT In, Out; VAR c: CHAR; i: INTEGER; BEGIN FOR i := 1 TO 6 DO In.Char(c); Out.Int(ORD(c), 4) END END I.",
        &["ab", "c"],
    ),
    (
        "MODULE I; IMPORT In, Out; VAR x, s: INTEGER; BEGIN WHILE In.Done DO In.Int(x); IF In.Done THEN INC(s, x) END END; Out.Int(s, 0) END I.",
        &["1 2 3", "-4", "5x"],
    ),
    (
        "MODULE I; IMPORT In, Out; VAR s: ARRAY 3 OF CHAR; BEGIN s := \"q\"; In.Name(s); Out.String(s); Out.Int(ORD(In.Done), 2); In.Open; In.String(s); Out.String(s); Out.Int(ORD(In.Done), 2) END I.",
        &["abc", "\"de\" \"f\""],
    ),
    (
        "MODULE I; IMPORT In, Out; VAR x: INTEGER; BEGIN In.Int(x); Out.Int(x, 0); In.Int(x); Out.Int(x, 12); In.Int(x); Out.Int(ORD(In.Done), 2) END I.",
        &["-2147483648 2147483647 -"],
    ),
    (
        "MODULE I; IMPORT In, Out; VAR a: ARRAY 2 OF INTEGER; PROCEDURE Get(VAR x: INTEGER); BEGIN In.Int(x) END Get; BEGIN Get(a[1]); Get(a[0]); Out.Int(a[0] - a[1], 0) END I.",
        &["3", "10"],
    ),
    (
        "MODULE O; IMPORT Out; VAR i: INTEGER; BEGIN Out.Open; FOR i := -1 TO 4 DO Out.Int(i * 37, i) END; Out.Int(5, 1030); Out.Char(0X); Out.Char(0FFX); Out.Ln END O.",
        &[],
    ),
    (
        "MODULE O; IMPORT Out; VAR s: ARRAY 3 OF CHAR; BEGIN s[0] := \"a\"; s[1] := \"b\"; s[2] := \"c\"; Out.String(s); Out.String(\"xyz\"); s[1] := 0X; Out.String(s) END O.",
        &[],
    ),
];

/// Programs of two modules, of which the second's body runs: the first's variables are zero.
/// The first module of each.
pub(crate) const IMPORTED: &str =
    "MODULE N; CONST k* = 12; TYPE T* = RECORD a*: INTEGER; h: INTEGER END; VAR t*: T; v*: INTEGER; PROCEDURE Inc*; BEGIN INC(v) END Inc; PROCEDURE F*(x: INTEGER; VAR y: INTEGER): INTEGER; BEGIN y := x + v RETURN y * 2 END F; PROCEDURE Set*(VAR r: T; s: ARRAY OF CHAR); BEGIN r.a := LEN(s); r.h := 99; t := r END Set; PROCEDURE Bad*;\nBEGIN INC(v);\nASSERT(v < 2) END Bad; BEGIN v := 50 END N.";

/// Programs of two modules, of which the second's body runs: the first's variables are zero.
pub(crate) const IMPORTS: [&str; 6] = [
    "MODULE M; IMPORT N, Out; BEGIN N.Inc; Out.Int(N.v, 0); N.Inc; Out.Int(N.v, 2) END M.",
    "MODULE M; IMPORT B := N, Out; VAR y: INTEGER; BEGIN Out.Int(B.F(3, y), 0); Out.Int(y, 2); Out.Int(B.k, 3) END M.",
    "MODULE M; IMPORT N, Out; VAR r: N.T; PROCEDURE P(q: N.T); BEGIN Out.Int(q.a, 2) END P; BEGIN r.a := 4; N.Set(r, \"abc\"); P(r); P(N.t); Out.Int(N.t.a, 3); r := N.t END M.",
    "MODULE M; IMPORT N, Out; BEGIN N.Bad; Out.Char(\"x\"); N.Bad; Out.Char(\"y\") END M.",
    "MODULE M; IMPORT N, Out; PROCEDURE Deep(n: INTEGER); BEGIN IF n > 0 THEN N.Inc; Deep(n - 1) END END Deep; BEGIN Deep(3); Out.Int(N.v, 0); ASSERT(N.v = 4) END M.",
    "MODULE M; IMPORT N, Out; VAR a: ARRAY 3 OF N.T; BEGIN N.Set(a[1], \"\"); a[2] := a[1]; a[0] := N.t; Out.Int(a[0].a + a[2].a, 0); a[N.k] := N.t END M.",
];
