// The decks of examples/ with their stimuli, and their listings.

pub const PULSE: &str = "\
N   1   2   1
I   1
G   2NOT     2   1
G   3AND     1   1   2
O   3
E
F   1         0 0
F   1        10 1
H   1        20
E
";

pub const PULSE_LISTING: &str = "\
L   3        21   3
C         1 0
C        11 1
C        13 0
";

pub const DECODER: &str = "\
N   3   6   4
I   1
I   2
I   3
G   4NOT     2   1
G   5NOT     9   2
G   6AND     3   4   5   3
G   7AND     3   1   5   3
G   8AND     3   4   2   3
G   9AND     3   1   2   3
O   6
O   7
O   8
O   9
E
F   1         0 0
F   2         0 1
F   3         0 0
F   2        20 0
F   3        25 1
F   3        31 0
F   1        50 1
F   3        55 1
F   3        65 0
F   2        70 1
F   3        74 1
F   3        90 0
F   1       100 X
F   3       105 1
F   1       108 0
F   3       115 0
H   1       130
H   2       130
H   3       130
E
";

pub const DECODER_LISTING: &str = "\
L   6       133   3
C         3 0
C        32 1
C        34 0
L   7       133   5
C         3 0
C        58 1
C        68 0
C        77 1
C        82 0
L   8       133   4
C         3 0
C       108 X
C       113 1
C       118 0
L   9       133   5
C         3 0
C        77 1
C        93 0
C       108 X
C       111 0
";

pub const LATCH: &str = "\
N   2   2   2
I   1
I   2
G   3NOR     2   1   4
G   4NOR     3   2   3
O   3
O   4
E
F   1         0 0
F   2         0 0
F   1        10 1
F   1        16 0
F   2        30 1
F   2        36 0
F   1        50 1
F   1        56 0
H   1        80
H   2        80
E
";

pub const LATCH_LISTING: &str = "\
L   3        82   3
C        12 0
C        35 1
C        52 0
L   4        83   3
C        15 1
C        33 0
C        55 1
";

pub const ADDER: &str = "\
N  16  37   9
I   1
I   2
I   3
I   4
I   5
I   6
I   7
I   8
I   9
I  10
I  11
I  12
I  13
I  14
I  15
I  16
G  17XOR     3   1   9
G  18AND     2   1   9
G  19XOR     3   2  10
G  20XOR     3  19  18
G  21AND     2   2  10
G  22AND     2  19  18
G  23OR      2  21  22
G  24XOR     3   3  11
G  25XOR     3  24  23
G  26AND     2   3  11
G  27AND     2  24  23
G  28OR      2  26  27
G  29XOR     3   4  12
G  30XOR     3  29  28
G  31AND     2   4  12
G  32AND     2  29  28
G  33OR      2  31  32
G  34XOR     3   5  13
G  35XOR     3  34  33
G  36AND     2   5  13
G  37AND     2  34  33
G  38OR      2  36  37
G  39XOR     3   6  14
G  40XOR     3  39  38
G  41AND     2   6  14
G  42AND     2  39  38
G  43OR      2  41  42
G  44XOR     3   7  15
G  45XOR     3  44  43
G  46AND     2   7  15
G  47AND     2  44  43
G  48OR      2  46  47
G  49XOR     3   8  16
G  50XOR     3  49  48
G  51AND     2   8  16
G  52AND     2  49  48
G  53OR      2  51  52
O  17
O  20
O  25
O  30
O  35
O  40
O  45
O  50
O  53
E
F   1         0 0
F   2         0 0
F   3         0 0
F   4         0 0
F   5         0 0
F   6         0 0
F   7         0 0
F   8         0 0
F   9         0 0
F  10         0 0
F  11         0 0
F  12         0 0
F  13         0 0
F  14         0 0
F  15         0 0
F  16         0 0
F   1       100 1
F   2       100 1
F   3       100 1
F   5       100 1
F  10       100 1
F  12       100 1
F  14       100 1
F   4       200 1
F   6       200 1
F   7       200 1
F   8       200 1
F   9       200 1
F  10       200 0
F  12       200 0
F  14       200 0
F   1       300 0
F   3       300 0
F   5       300 0
F   7       300 0
F  11       300 1
F  13       300 1
F  15       300 1
F   2       400 0
F   6       400 0
F   7       400 1
F   9       400 0
F  13       400 0
F  14       400 1
H   1       500
H   2       500
H   3       500
H   4       500
H   5       500
H   6       500
H   7       500
H   8       500
H   9       500
H  10       500
H  11       500
H  12       500
H  13       500
H  14       500
H  15       500
H  16       500
E
";

pub const ADDER_LISTING: &str = "\
L  17       503   5
C         3 0
C       103 1
C       203 0
C       303 1
C       403 0
L  20       505   5
C         6 0
C       205 1
C       206 0
C       305 1
C       406 0
L  25       506   6
C         9 0
C       106 1
C       107 0
C       207 1
C       210 0
C       309 1
L  30       506   6
C        10 0
C       106 1
C       111 0
C       211 1
C       214 0
C       313 1
L  35       506   7
C        10 0
C       106 1
C       115 0
C       215 1
C       218 0
C       317 1
C       406 0
L  40       506   6
C        10 0
C       106 1
C       119 0
C       219 1
C       222 0
C       321 1
L  45       506   7
C        10 0
C       123 1
C       206 0
C       223 1
C       226 0
C       325 1
C       406 0
L  50       506   7
C        10 0
C       206 1
C       210 0
C       227 1
C       230 0
C       329 1
C       407 0
L  53       504   6
C         7 0
C       211 1
C       228 0
C       231 1
C       330 0
C       408 1
";

pub const FULL: &str = "\
N   1 127   3
I   1
G   2NAND    2   1   3
G   3BUF     3   2
G   4BUF     1   3
G   5BUF     1   4
G   6BUF     1   5
G   7BUF     1   6
G   8BUF     1   7
G   9BUF     1   8
G  10BUF     1   9
G  11BUF     1  10
G  12BUF     1  11
G  13BUF     1  12
G  14BUF     1  13
G  15BUF     1  14
G  16BUF     1  15
G  17BUF     1  16
G  18BUF     1  17
G  19BUF     1  18
G  20BUF     1  19
G  21BUF     1  20
G  22BUF     1  21
G  23BUF     1  22
G  24BUF     1  23
G  25BUF     1  24
G  26BUF     1  25
G  27BUF     1  26
G  28BUF     1  27
G  29BUF     1  28
G  30BUF     1  29
G  31BUF     1  30
G  32BUF     1  31
G  33BUF     1  32
G  34BUF     1  33
G  35BUF     1  34
G  36BUF     1  35
G  37BUF     1  36
G  38BUF     1  37
G  39BUF     1  38
G  40BUF     1  39
G  41BUF     1  40
G  42BUF     1  41
G  43BUF     1  42
G  44BUF     1  43
G  45BUF     1  44
G  46BUF     1  45
G  47BUF     1  46
G  48BUF     1  47
G  49BUF     1  48
G  50BUF     1  49
G  51BUF     1  50
G  52BUF     1  51
G  53BUF     1  52
G  54BUF     1  53
G  55BUF     1  54
G  56BUF     1  55
G  57BUF     1  56
G  58BUF     1  57
G  59BUF     1  58
G  60BUF     1  59
G  61BUF     1  60
G  62BUF     1  61
G  63BUF     1  62
G  64BUF     1  63
G  65BUF     1  64
G  66BUF     1  65
G  67BUF     1  66
G  68BUF     1  67
G  69BUF     1  68
G  70BUF     1  69
G  71BUF     1  70
G  72BUF     1  71
G  73BUF     1  72
G  74BUF     1  73
G  75BUF     1  74
G  76BUF     1  75
G  77BUF     1  76
G  78BUF     1  77
G  79BUF     1  78
G  80BUF     1  79
G  81BUF     1  80
G  82BUF     1  81
G  83BUF     1  82
G  84BUF     1  83
G  85BUF     1  84
G  86BUF     1  85
G  87BUF     1  86
G  88BUF     1  87
G  89BUF     1  88
G  90BUF     1  89
G  91BUF     1  90
G  92BUF     1  91
G  93BUF     1  92
G  94BUF     1  93
G  95BUF     1  94
G  96BUF     1  95
G  97BUF     1  96
G  98BUF     1  97
G  99BUF     1  98
G 100BUF     1  99
G 101BUF     1 100
G 102BUF     1 101
G 103BUF     1 102
G 104BUF     1 103
G 105BUF     1 104
G 106BUF     1 105
G 107BUF     1 106
G 108BUF     1 107
G 109BUF     1 108
G 110BUF     1 109
G 111BUF     1 110
G 112BUF     1 111
G 113BUF     1 112
G 114BUF     1 113
G 115BUF     1 114
G 116BUF     1 115
G 117BUF     1 116
G 118BUF     1 117
G 119BUF     1 118
G 120BUF     1 119
G 121BUF     1 120
G 122BUF     1 121
G 123BUF     1 122
G 124BUF     1 123
G 125BUF     1 124
G 126BUF     1 125
G 127BUF     1 126
G 128NOT     2   1
O   3
O  64
O 128
E
F   1         0 0
F   1        20 1
H   1      1000
E
";

pub const FULL_LISTING: &str = "\
L   3       175  31
C         5 1
C        25 0
C        30 1
C        35 0
C        40 1
C        45 0
C        50 1
C        55 0
C        60 1
C        65 0
C        70 1
C        75 0
C        80 1
C        85 0
C        90 1
C        95 0
C       100 1
C       105 0
C       110 1
C       115 0
C       120 1
C       125 0
C       130 1
C       135 0
C       140 1
C       145 0
C       150 1
C       155 0
C       160 1
C       165 0
C       170 1
L  64       236  31
C        66 1
C        86 0
C        91 1
C        96 0
C       101 1
C       106 0
C       111 1
C       116 0
C       121 1
C       126 0
C       131 1
C       136 0
C       141 1
C       146 0
C       151 1
C       156 0
C       161 1
C       166 0
C       171 1
C       176 0
C       181 1
C       186 0
C       191 1
C       196 0
C       201 1
C       206 0
C       211 1
C       216 0
C       221 1
C       226 0
C       231 1
L 128      1002   2
C         2 1
C        22 0
";
