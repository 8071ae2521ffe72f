// The kinds of `SyntaxKind`, each at its place in the source, from 0. Constants and no enum, since there are 258 kinds (tried: "an enum with
// more than 256 variants is not supported yet").
pub const ERROR: u16 = 0;

pub const FILE: u16 = 1;

pub const QUERY_LIST: u16 = 2;

pub const SELECT_STATEMENT: u16 = 3;

pub const INSERT_STATEMENT: u16 = 4;

pub const UPDATE_STATEMENT: u16 = 5;

pub const DELETE_STATEMENT: u16 = 6;

pub const CREATE_STATEMENT: u16 = 7;

pub const ALTER_STATEMENT: u16 = 8;

pub const DROP_STATEMENT: u16 = 9;

pub const TRUNCATE_STATEMENT: u16 = 10;

pub const RENAME_STATEMENT: u16 = 11;

pub const SHOW_STATEMENT: u16 = 12;

pub const USE_STATEMENT: u16 = 13;

pub const SET_STATEMENT: u16 = 14;

pub const OPTIMIZE_STATEMENT: u16 = 15;

pub const SYSTEM_STATEMENT: u16 = 16;

pub const EXPLAIN_STATEMENT: u16 = 17;

pub const DESCRIBE_STATEMENT: u16 = 18;

pub const EXISTS_STATEMENT: u16 = 19;

pub const CHECK_STATEMENT: u16 = 20;

pub const KILL_STATEMENT: u16 = 21;

pub const GRANT_STATEMENT: u16 = 22;

pub const REVOKE_STATEMENT: u16 = 23;

pub const ATTACH_STATEMENT: u16 = 24;

pub const DETACH_STATEMENT: u16 = 25;

pub const EXCHANGE_STATEMENT: u16 = 26;

pub const UNDROP_STATEMENT: u16 = 27;

pub const BACKUP_STATEMENT: u16 = 28;

pub const RESTORE_STATEMENT: u16 = 29;

pub const BEGIN_STATEMENT: u16 = 30;

pub const COMMIT_STATEMENT: u16 = 31;

pub const ROLLBACK_STATEMENT: u16 = 32;

pub const WITH_CLAUSE: u16 = 33;

pub const SELECT_CLAUSE: u16 = 34;

pub const FROM_CLAUSE: u16 = 35;

pub const JOIN_CLAUSE: u16 = 36;

pub const ARRAY_JOIN_CLAUSE: u16 = 37;

pub const PREWHERE_CLAUSE: u16 = 38;

pub const WHERE_CLAUSE: u16 = 39;

pub const GROUP_BY_CLAUSE: u16 = 40;

pub const HAVING_CLAUSE: u16 = 41;

pub const ORDER_BY_CLAUSE: u16 = 42;

pub const LIMIT_BY_CLAUSE: u16 = 43;

pub const LIMIT_CLAUSE: u16 = 44;

pub const SETTINGS_CLAUSE: u16 = 45;

pub const FORMAT_CLAUSE: u16 = 46;

pub const UNION_CLAUSE: u16 = 47;

pub const WINDOW_CLAUSE: u16 = 48;

pub const WINDOW_DEFINITION: u16 = 49;

pub const WINDOW_FRAME: u16 = 50;

pub const WINDOW_SPEC: u16 = 51;

pub const QUALIFY_CLAUSE: u16 = 52;

pub const SAMPLE_CLAUSE: u16 = 53;

pub const WITH_FILL_CLAUSE: u16 = 54;

pub const TABLE_DEFINITION: u16 = 55;

pub const DATABASE_DEFINITION: u16 = 56;

pub const VIEW_DEFINITION: u16 = 57;

pub const MATERIALIZED_VIEW_DEFINITION: u16 = 58;

pub const DICTIONARY_DEFINITION: u16 = 59;

pub const FUNCTION_DEFINITION: u16 = 60;

pub const ENGINE_CLAUSE: u16 = 61;

pub const ORDER_BY_DEFINITION: u16 = 62;

pub const PARTITION_BY_DEFINITION: u16 = 63;

pub const PRIMARY_KEY_DEFINITION: u16 = 64;

pub const SAMPLE_BY_DEFINITION: u16 = 65;

pub const TTL_DEFINITION: u16 = 66;

pub const ON_CLUSTER_CLAUSE: u16 = 67;

pub const IF_NOT_EXISTS_CLAUSE: u16 = 68;

pub const IF_EXISTS_CLAUSE: u16 = 69;

pub const AS_CLAUSE: u16 = 70;

pub const DICTIONARY_SOURCE: u16 = 71;

pub const DICTIONARY_SOURCE_TYPE: u16 = 72;

pub const DICTIONARY_LAYOUT: u16 = 73;

pub const DICTIONARY_LAYOUT_TYPE: u16 = 74;

pub const DICTIONARY_LIFETIME: u16 = 75;

pub const DICTIONARY_RANGE: u16 = 76;

pub const DICTIONARY_KEY_VALUE: u16 = 77;

pub const COLUMN_DEFINITION: u16 = 78;

pub const COLUMN_DEFINITION_LIST: u16 = 79;

pub const COLUMN_TYPE_DEFINITION: u16 = 80;

pub const COLUMN_CONSTRAINT: u16 = 81;

pub const COLUMN_DEFAULT: u16 = 82;

pub const COLUMN_CODEC: u16 = 83;

pub const COLUMN_TTL: u16 = 84;

pub const COLUMN_COMMENT: u16 = 85;

pub const TABLE_CONSTRAINT: u16 = 86;

pub const INDEX_DEFINITION: u16 = 87;

pub const PROJECTION_DEFINITION: u16 = 88;

pub const CONSTRAINT_DEFINITION: u16 = 89;

pub const CREATE_INDEX_STATEMENT: u16 = 90;

pub const CREATE_USER_STATEMENT: u16 = 91;

pub const CREATE_ROLE_STATEMENT: u16 = 92;

pub const CREATE_QUOTA_STATEMENT: u16 = 93;

pub const CREATE_ROW_POLICY_STATEMENT: u16 = 94;

pub const CREATE_SETTINGS_PROFILE_STATEMENT: u16 = 95;

pub const ALTER_USER_STATEMENT: u16 = 96;

pub const DROP_ACCESS_ENTITY_STATEMENT: u16 = 97;

pub const TABLE_IDENTIFIER: u16 = 98;

pub const TABLE_EXPRESSION: u16 = 99;

pub const TABLE_FUNCTION: u16 = 100;

pub const ALTER_COMMAND_LIST: u16 = 101;

pub const ALTER_ADD_COLUMN: u16 = 102;

pub const ALTER_DROP_COLUMN: u16 = 103;

pub const ALTER_MODIFY_COLUMN: u16 = 104;

pub const ALTER_RENAME_COLUMN: u16 = 105;

pub const ALTER_CLEAR_COLUMN: u16 = 106;

pub const ALTER_COMMENT_COLUMN: u16 = 107;

pub const ALTER_ADD_INDEX: u16 = 108;

pub const ALTER_DROP_INDEX: u16 = 109;

pub const ALTER_CLEAR_INDEX: u16 = 110;

pub const ALTER_MATERIALIZE_INDEX: u16 = 111;

pub const ALTER_ADD_PROJECTION: u16 = 112;

pub const ALTER_DROP_PROJECTION: u16 = 113;

pub const ALTER_ADD_CONSTRAINT: u16 = 114;

pub const ALTER_DROP_CONSTRAINT: u16 = 115;

pub const ALTER_MODIFY_ORDER_BY: u16 = 116;

pub const ALTER_MODIFY_TTL: u16 = 117;

pub const ALTER_MODIFY_SETTING: u16 = 118;

pub const ALTER_MODIFY_COMMENT: u16 = 119;

pub const ALTER_MODIFY_QUERY: u16 = 120;

pub const ALTER_MATERIALIZE_PROJECTION: u16 = 121;

pub const ALTER_MATERIALIZE_TTL: u16 = 122;

pub const ALTER_RESET_SETTING: u16 = 123;

pub const ALTER_DROP_PARTITION: u16 = 124;

pub const ALTER_ATTACH_PARTITION: u16 = 125;

pub const ALTER_DETACH_PARTITION: u16 = 126;

pub const ALTER_FREEZE_PARTITION: u16 = 127;

pub const ALTER_DELETE_WHERE: u16 = 128;

pub const ALTER_UPDATE_WHERE: u16 = 129;

pub const INSERT_COLUMNS_CLAUSE: u16 = 130;

pub const INSERT_VALUES_CLAUSE: u16 = 131;

pub const INSERT_FORMAT_CLAUSE: u16 = 132;

pub const VALUE_ROW: u16 = 133;

pub const EXPRESSION: u16 = 134;

pub const ASTERISK: u16 = 135;

pub const IDENTIFIER: u16 = 136;

pub const COLUMN_REFERENCE: u16 = 137;

pub const COLUMN_ALIAS: u16 = 138;

pub const QUALIFIED_NAME: u16 = 139;

pub const FUNCTION_CALL: u16 = 140;

pub const AGGREGATE_FUNCTION: u16 = 141;

pub const CAST_EXPRESSION: u16 = 142;

pub const CASE_EXPRESSION: u16 = 143;

pub const BINARY_EXPRESSION: u16 = 144;

pub const UNARY_EXPRESSION: u16 = 145;

pub const BETWEEN_EXPRESSION: u16 = 146;

pub const IN_EXPRESSION: u16 = 147;

pub const IS_NULL_EXPRESSION: u16 = 148;

pub const IS_DISTINCT_FROM_EXPRESSION: u16 = 149;

pub const LIKE_EXPRESSION: u16 = 150;

pub const TUPLE_EXPRESSION: u16 = 151;

pub const ARRAY_EXPRESSION: u16 = 152;

pub const ARRAY_ACCESS_EXPRESSION: u16 = 153;

pub const DOT_ACCESS_EXPRESSION: u16 = 154;

pub const TYPED_JSON_ACCESS_EXPRESSION: u16 = 155;

pub const MAP_EXPRESSION: u16 = 156;

pub const QUERY_PARAMETER_EXPRESSION: u16 = 157;

pub const SUBQUERY_EXPRESSION: u16 = 158;

pub const LAMBDA_EXPRESSION: u16 = 159;

pub const INTERVAL_EXPRESSION: u16 = 160;

pub const WINDOW_EXPRESSION: u16 = 161;

pub const EXISTS_EXPRESSION: u16 = 162;

pub const TERNARY_EXPRESSION: u16 = 163;

pub const QUALIFIED_ASTERISK: u16 = 164;

pub const NULLS_MODIFIER: u16 = 165;

pub const FILTER_CLAUSE: u16 = 166;

pub const COLUMN_TRANSFORMER: u16 = 167;

pub const GROUPING_SETS_CLAUSE: u16 = 168;

pub const GROUPING_SET: u16 = 169;

pub const WITH_TOTALS_CLAUSE: u16 = 170;

pub const NUMBER_LITERAL: u16 = 171;

pub const STRING_LITERAL: u16 = 172;

pub const DATE_LITERAL: u16 = 173;

pub const BOOLEAN_LITERAL: u16 = 174;

pub const NULL_LITERAL: u16 = 175;

pub const COLUMN_LIST: u16 = 176;

pub const EXPRESSION_LIST: u16 = 177;

pub const ORDER_BY_LIST: u16 = 178;

pub const GROUP_BY_LIST: u16 = 179;

pub const SETTING_LIST: u16 = 180;

pub const IDENTIFIER_LIST: u16 = 181;

pub const JOIN_TYPE: u16 = 182;

pub const JOIN_CONSTRAINT: u16 = 183;

pub const WHEN_CLAUSE: u16 = 184;

pub const ORDER_BY_ITEM: u16 = 185;

pub const SETTING_ITEM: u16 = 186;

pub const WITH_EXPRESSION_ITEM: u16 = 187;

pub const TABLE_ALIAS: u16 = 188;

pub const USING_LIST: u16 = 189;

pub const RENAME_ITEM: u16 = 190;

pub const DATA_TYPE: u16 = 191;

pub const DATA_TYPE_PARAMETERS: u16 = 192;

pub const NESTED_DATA_TYPE: u16 = 193;

pub const ENUM_VALUE: u16 = 194;

pub const PARTITION_EXPRESSION: u16 = 195;

pub const SAMPLE_EXPRESSION: u16 = 196;

pub const EXPLAIN_KIND: u16 = 197;

pub const SHOW_TARGET: u16 = 198;

pub const LIKE_CLAUSE: u16 = 199;

pub const FROM_DATABASE_CLAUSE: u16 = 200;

pub const SYSTEM_COMMAND: u16 = 201;

pub const PRIVILEGE_LIST: u16 = 202;

pub const PRIVILEGE: u16 = 203;

pub const GRANT_TARGET: u16 = 204;

pub const KILL_TARGET: u16 = 205;

pub const SET_CLAUSE: u16 = 206;

pub const ASSIGNMENT_LIST: u16 = 207;

pub const ASSIGNMENT: u16 = 208;

pub const WHITESPACE: u16 = 209;

pub const COMMENT: u16 = 210;

pub const BARE_WORD: u16 = 211;

pub const NUMBER: u16 = 212;

pub const STRING_TOKEN: u16 = 213;

pub const QUOTED_IDENTIFIER: u16 = 214;

pub const OPENING_ROUND_BRACKET: u16 = 215;

pub const CLOSING_ROUND_BRACKET: u16 = 216;

pub const OPENING_SQUARE_BRACKET: u16 = 217;

pub const CLOSING_SQUARE_BRACKET: u16 = 218;

pub const OPENING_CURLY_BRACE: u16 = 219;

pub const CLOSING_CURLY_BRACE: u16 = 220;

pub const COMMA: u16 = 221;

pub const SEMICOLON: u16 = 222;

pub const VERTICAL_DELIMITER: u16 = 223;

pub const DOT: u16 = 224;

pub const STAR: u16 = 225;

pub const HERE_DOC: u16 = 226;

pub const DOLLAR_SIGN: u16 = 227;

pub const PLUS: u16 = 228;

pub const MINUS: u16 = 229;

pub const SLASH: u16 = 230;

pub const PERCENT: u16 = 231;

pub const ARROW: u16 = 232;

pub const QUESTION_MARK: u16 = 233;

pub const COLON: u16 = 234;

pub const CARET: u16 = 235;

pub const DOUBLE_COLON: u16 = 236;

pub const EQUALS: u16 = 237;

pub const NOT_EQUALS: u16 = 238;

pub const LESS: u16 = 239;

pub const GREATER: u16 = 240;

pub const LESS_OR_EQUALS: u16 = 241;

pub const GREATER_OR_EQUALS: u16 = 242;

pub const SPACESHIP: u16 = 243;

pub const PIPE_MARK: u16 = 244;

pub const CONCATENATION: u16 = 245;

pub const AT: u16 = 246;

pub const DOUBLE_AT: u16 = 247;

pub const END_OF_STREAM: u16 = 248;

pub const ERROR_TOKEN: u16 = 249;

pub const ERROR_MULTILINE_COMMENT_IS_NOT_CLOSED: u16 = 250;

pub const ERROR_SINGLE_QUOTE_IS_NOT_CLOSED: u16 = 251;

pub const ERROR_DOUBLE_QUOTE_IS_NOT_CLOSED: u16 = 252;

pub const ERROR_BACK_QUOTE_IS_NOT_CLOSED: u16 = 253;

pub const ERROR_SINGLE_EXCLAMATION_MARK: u16 = 254;

pub const ERROR_SINGLE_PIPE_MARK: u16 = 255;

pub const ERROR_WRONG_NUMBER: u16 = 256;

pub const ERROR_MAX_QUERY_SIZE_EXCEEDED: u16 = 257;
