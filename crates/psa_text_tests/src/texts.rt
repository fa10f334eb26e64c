//! Small texts, and what the scanner finds in them.

/// Rows, as `wrong_rows` reads them.
pub const TREES: &str = "\
<opsa-mef/> => opsa-mef@1{}
\u{FEFF}<a/> => a@1{}
|<a>\r|<b></b >\r<c/></a>|| => a@2{b@3{}c@3{}}
<a b=\" x \" c = 'y'|/> => a@1 b=x c=y{}
<a b='\t|\r'/> => a@1 b={}
<a b='1\t2|3\r4'/> => a@1 b=1 2 3 4{}
<a b='&#32;x&#x20;'/> => a@1 b=x{}
<a b='&#9;x&#10;&#13;'/> => a@1 b=\tx|\r{}
<a b='&#xA0;x'/> => a@1 b=\u{A0}x{}
<a b='&lt;&gt;&amp;&quot;&apos;'/> => a@1 b=<>&\"'{}
<a b='&#00000065;&#x10FFFF;&#xfFfD;'/> => a@1 b=A\u{10FFFF}\u{FFFD}{}
<a b='>'/> => a@1 b=>{}
<:_\u{E9}-.1/> => :_\u{E9}-.1@1{}
<label>x<b> </b>y</label> => label@1{b@1{}}
<?><?><a/><!-->--><!---> --> => a@1{}
<!DOCTYPE a \"x\"><!DOCTYPE\tb><a/> => a@1{}
";

/// Rows, as `wrong_rows` reads them.
pub const FAULTS: &str = "\
[EF] => bad nesting 1
 => bad nesting 1
[EF][BB] => bad nesting 1
[EF][BB][BF] => bad nesting 1
[EF]<a/> => bad nesting 1 at 2
[EF][BB]| => bad nesting 1 at 3
[BB] => bad nesting 1 at 1
|[EF][BB][BF] => bad nesting 2 at 2
[1F][8B] => bad nesting 1 at 1
<opsa-mef name=\"x => bad markup 1
|<a|| => bad markup 2
<a>|| => bad nesting 3
<a>|</b> => bad nesting 2 at 8
</a> => bad nesting 1 at 4
<a/><b/> => bad nesting 1 at 8
<a/>|<b>< => bad nesting 2 at 8
<a/><!DOCTYPE a> => bad nesting 1 at 16
<a>x => bad nesting 1 at 4
<a>|| x => bad nesting 3 at 7
<label><b>x => bad nesting 1 at 11
<a/>x => bad nesting 1 at 5
<a/>[00] => bad nesting 1 at 5
<a/><b x='< => bad markup 1 at 11
< a => bad markup 1 at 2
<1 => bad markup 1 at 2
<a||< => bad markup 1 at 5
<a/ > => bad markup 1 at 4
<a b='1'c => bad markup 1 at 9
<a b c => bad markup 1 at 6
<a b=1 => bad markup 1 at 6
<!d => bad markup 1 at 3
<![5B] => bad markup 1 at 3
<!-a => bad markup 1 at 4
<!DOCTYPE> => bad markup 1 at 10
<!DOCTYPE a [5B] => bad markup 1 at 13
<a b='&x => bad markup 1 at 8
<a b='&amp' => bad markup 1 at 11
<a b='&#; => bad markup 1 at 9
<a b='&#x; => bad markup 1 at 10
<a b='&#123456789 => bad markup 1 at 17
<a b='&#x123456789 => bad markup 1 at 18
<a b='&lt ' => bad markup 1 at 10
<a b='&#0; => bad markup 1 at 10
<a b='&#xD800; => bad markup 1 at 14
<a b='&#xDFFF; => bad markup 1 at 14
<a b='&#x110000; => bad markup 1 at 16
<a[FF] > => bad markup 1 at 4
<a></a[FF] > => bad markup 1 at 8
<a b='[C3]' => bad markup 1 at 8
<a b='[C3]&lt;[A9]' => bad markup 1 at 13
<a [C3]=' => bad markup 1 at 5
";

/// Rows, as `wrong_rows` reads them: names, values, attributes and depths at their limits and past them.
pub const LIMITS: &str = "\
<[65 n]/> => long token 1 at 66
<a>|</[65 n]> => long token 2 at 71
<a [65 n]='x'/> => long token 1 at 68
<[64 n]< => bad markup 1 at 66
<a/><[65 n]> => long token 1 at 70
<a b='[513 v]'/> => long token 1 at 519
<a b='[512 v]< => bad markup 1 at 519
<a b='[103 &#65;]'/> => long token 1 at 519
<a b='[508 v]&#0;'/> => bad markup 1 at 518
<a b='[509 v]&#0;'/> => bad markup 1 at 519
<a b='[510 v]&#0;'/> => long token 1 at 519
<a[33  b='1']/> => long token 1 at 196
<a[32  b='1'] 1 => bad markup 1 at 196
[65 <a>] => bad nesting 1 at 195
[64 <a>]<a/> => bad nesting 1 at 196
[64 <a>]<a b=' => bad markup 1
<[64 n]/> => [64 n]@1{}
<a [64 n]='x'/> => a@1 [64 n]=x{}
<a b='[512 v]'/> => a@1 b=[512 v]{}
<a b='[102 &#65;]xx'/> => a@1 b=[102 A]xx{}
<a[32  b='1']/> => a@1[32  b=1]{}
[64 <a>][64 </a>] => [64 a@1{][64 }]
";

/// Rows, as `wrong_files` reads them: files of 2^26 bytes or a byte more, and of a million elements and one more.
pub const FILES: &str = "\
<a>| ... 999999 ... <b/> ... |<b => long file 3
 ... 65535 ... [1024  ] ... [1023  ]|  => long file 2
[EF][BB][BF] ... 65535 ... [1024  ] ... [1020  ]|  => long file 2
[EF][BB][BF] ... 65535 ... [1024  ] ... [1020  ]| => none
";
