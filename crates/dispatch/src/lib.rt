// The dispatch of format_node: the routine of each kind.
#![tactic(auto)]

ghost use Rattle.std.specs.Prelude.{◌≡◌};
ghost use Rattle.layout.specs.FormatNode.{routine_of};

use layout::Routine;
use tape::syntax_kind;

// Neighbours in one arm would become ranges, each with a goal that the check does not find, so the kinds of a routine stand in two arms.
#[tactic(auto, unfolding(layout::specs::FormatNode::routine_of, layout::specs::FormatNode::routines))]
pub fn routine_of(kind: u16) -> Routine
    ensures { result ≡ routine_of kind }
{
    match kind {
        syntax_kind::FILE => Routine::File,
        syntax_kind::QUERY_LIST => Routine::QueryList,
        syntax_kind::SELECT_STATEMENT => Routine::SelectStatement,
        syntax_kind::SELECT_CLAUSE => Routine::SelectClause,
        syntax_kind::DELETE_STATEMENT
        | syntax_kind::DROP_STATEMENT
        | syntax_kind::RENAME_STATEMENT
        | syntax_kind::USE_STATEMENT
        | syntax_kind::OPTIMIZE_STATEMENT
        | syntax_kind::DESCRIBE_STATEMENT
        | syntax_kind::CHECK_STATEMENT
        | syntax_kind::GRANT_STATEMENT
        | syntax_kind::ATTACH_STATEMENT
        | syntax_kind::EXCHANGE_STATEMENT
        | syntax_kind::BACKUP_STATEMENT
        | syntax_kind::FROM_CLAUSE
        | syntax_kind::ARRAY_JOIN_CLAUSE
        | syntax_kind::WHERE_CLAUSE
        | syntax_kind::HAVING_CLAUSE
        | syntax_kind::LIMIT_CLAUSE
        | syntax_kind::FORMAT_CLAUSE
        | syntax_kind::WINDOW_CLAUSE
        | syntax_kind::ORDER_BY_DEFINITION
        | syntax_kind::PRIMARY_KEY_DEFINITION
        | syntax_kind::TTL_DEFINITION
        | syntax_kind::AS_CLAUSE
        | syntax_kind::CREATE_INDEX_STATEMENT
        | syntax_kind::INSERT_FORMAT_CLAUSE => Routine::SimpleClause,
        syntax_kind::TRUNCATE_STATEMENT
        | syntax_kind::SHOW_STATEMENT
        | syntax_kind::SYSTEM_STATEMENT
        | syntax_kind::EXISTS_STATEMENT
        | syntax_kind::KILL_STATEMENT
        | syntax_kind::REVOKE_STATEMENT
        | syntax_kind::DETACH_STATEMENT
        | syntax_kind::UNDROP_STATEMENT
        | syntax_kind::RESTORE_STATEMENT
        | syntax_kind::PREWHERE_CLAUSE
        | syntax_kind::PARTITION_BY_DEFINITION
        | syntax_kind::SAMPLE_BY_DEFINITION => Routine::SimpleClause,
        syntax_kind::GROUP_BY_CLAUSE => Routine::ListClause(syntax_kind::GROUP_BY_LIST),
        syntax_kind::ORDER_BY_CLAUSE => Routine::ListClause(syntax_kind::ORDER_BY_LIST),
        syntax_kind::SETTINGS_CLAUSE => Routine::SettingsClause,
        syntax_kind::WITH_CLAUSE => Routine::WithClause,
        syntax_kind::JOIN_CLAUSE | syntax_kind::LIMIT_BY_CLAUSE => Routine::JoinClause,
        syntax_kind::WINDOW_DEFINITION
        | syntax_kind::WINDOW_SPEC
        | syntax_kind::SAMPLE_CLAUSE
        | syntax_kind::FUNCTION_DEFINITION
        | syntax_kind::ON_CLUSTER_CLAUSE
        | syntax_kind::IF_EXISTS_CLAUSE
        | syntax_kind::DICTIONARY_KEY_VALUE
        | syntax_kind::COLUMN_DEFAULT
        | syntax_kind::COLUMN_TTL
        | syntax_kind::PROJECTION_DEFINITION
        | syntax_kind::CREATE_USER_STATEMENT
        | syntax_kind::CREATE_QUOTA_STATEMENT
        | syntax_kind::CREATE_SETTINGS_PROFILE_STATEMENT
        | syntax_kind::DROP_ACCESS_ENTITY_STATEMENT
        | syntax_kind::TABLE_EXPRESSION
        | syntax_kind::ALTER_ADD_COLUMN
        | syntax_kind::ALTER_MODIFY_COLUMN
        | syntax_kind::ALTER_CLEAR_COLUMN
        | syntax_kind::ALTER_ADD_INDEX
        | syntax_kind::ALTER_CLEAR_INDEX
        | syntax_kind::ALTER_ADD_PROJECTION
        | syntax_kind::ALTER_ADD_CONSTRAINT
        | syntax_kind::ALTER_MODIFY_ORDER_BY
        | syntax_kind::ALTER_MODIFY_SETTING
        | syntax_kind::ALTER_MODIFY_QUERY
        | syntax_kind::ALTER_MATERIALIZE_TTL
        | syntax_kind::ALTER_DROP_PARTITION
        | syntax_kind::ALTER_DETACH_PARTITION
        | syntax_kind::ALTER_DELETE_WHERE
        | syntax_kind::COLUMN_REFERENCE
        | syntax_kind::CAST_EXPRESSION
        | syntax_kind::BETWEEN_EXPRESSION
        | syntax_kind::IS_NULL_EXPRESSION
        | syntax_kind::LIKE_EXPRESSION
        | syntax_kind::LAMBDA_EXPRESSION
        | syntax_kind::WINDOW_EXPRESSION
        | syntax_kind::JOIN_TYPE
        | syntax_kind::ORDER_BY_ITEM
        | syntax_kind::WITH_EXPRESSION_ITEM
        | syntax_kind::USING_LIST
        | syntax_kind::PARTITION_EXPRESSION
        | syntax_kind::EXPLAIN_KIND
        | syntax_kind::LIKE_CLAUSE
        | syntax_kind::SYSTEM_COMMAND
        | syntax_kind::PRIVILEGE
        | syntax_kind::KILL_TARGET
        | syntax_kind::ASSIGNMENT => Routine::Inline,
        syntax_kind::WINDOW_FRAME
        | syntax_kind::WITH_FILL_CLAUSE
        | syntax_kind::IF_NOT_EXISTS_CLAUSE
        | syntax_kind::COLUMN_DEFINITION
        | syntax_kind::COLUMN_COMMENT
        | syntax_kind::CONSTRAINT_DEFINITION
        | syntax_kind::CREATE_ROLE_STATEMENT
        | syntax_kind::CREATE_ROW_POLICY_STATEMENT
        | syntax_kind::ALTER_USER_STATEMENT
        | syntax_kind::TABLE_IDENTIFIER
        | syntax_kind::ALTER_DROP_COLUMN
        | syntax_kind::ALTER_RENAME_COLUMN
        | syntax_kind::ALTER_COMMENT_COLUMN
        | syntax_kind::ALTER_DROP_INDEX
        | syntax_kind::ALTER_MATERIALIZE_INDEX
        | syntax_kind::ALTER_DROP_PROJECTION
        | syntax_kind::ALTER_DROP_CONSTRAINT
        | syntax_kind::ALTER_MODIFY_TTL
        | syntax_kind::ALTER_MODIFY_COMMENT
        | syntax_kind::ALTER_MATERIALIZE_PROJECTION
        | syntax_kind::ALTER_RESET_SETTING
        | syntax_kind::ALTER_ATTACH_PARTITION
        | syntax_kind::ALTER_FREEZE_PARTITION
        | syntax_kind::ALTER_UPDATE_WHERE
        | syntax_kind::COLUMN_ALIAS
        | syntax_kind::IN_EXPRESSION
        | syntax_kind::INTERVAL_EXPRESSION
        | syntax_kind::JOIN_CONSTRAINT
        | syntax_kind::SETTING_ITEM
        | syntax_kind::TABLE_ALIAS
        | syntax_kind::RENAME_ITEM
        | syntax_kind::SHOW_TARGET
        | syntax_kind::FROM_DATABASE_CLAUSE
        | syntax_kind::GRANT_TARGET
        | syntax_kind::SET_CLAUSE => Routine::Inline,
        syntax_kind::COLUMN_LIST | syntax_kind::ORDER_BY_LIST | syntax_kind::SETTING_LIST =>
            Routine::CommaList,
        syntax_kind::GROUP_BY_LIST => Routine::CommaList,
        syntax_kind::INSERT_COLUMNS_CLAUSE
        | syntax_kind::EXPRESSION_LIST
        | syntax_kind::IDENTIFIER_LIST
        | syntax_kind::PRIVILEGE_LIST
        | syntax_kind::ASSIGNMENT_LIST => Routine::InlineCommaList,
        syntax_kind::BINARY_EXPRESSION => Routine::BinaryExpression,
        syntax_kind::UNARY_EXPRESSION => Routine::UnaryExpression,
        syntax_kind::TABLE_FUNCTION | syntax_kind::FUNCTION_CALL => Routine::FunctionCall,
        syntax_kind::AGGREGATE_FUNCTION => Routine::FunctionCall,
        syntax_kind::CASE_EXPRESSION => Routine::CaseExpression,
        syntax_kind::WHEN_CLAUSE => Routine::WhenClause,
        syntax_kind::SUBQUERY_EXPRESSION => Routine::Subquery,
        syntax_kind::VALUE_ROW | syntax_kind::TUPLE_EXPRESSION => Routine::ParenList,
        syntax_kind::ARRAY_EXPRESSION => Routine::BracketList,
        syntax_kind::QUALIFIED_NAME
        | syntax_kind::ARRAY_ACCESS_EXPRESSION
        | syntax_kind::QUERY_PARAMETER_EXPRESSION => Routine::InlineNoSpaces,
        syntax_kind::MAP_EXPRESSION => Routine::BraceList,
        syntax_kind::DATA_TYPE => Routine::DataType,
        syntax_kind::DATA_TYPE_PARAMETERS => Routine::DataType,
        syntax_kind::DICTIONARY_SOURCE
        | syntax_kind::DICTIONARY_LAYOUT
        | syntax_kind::DICTIONARY_LIFETIME
        | syntax_kind::COLUMN_CODEC
        | syntax_kind::INDEX_DEFINITION => Routine::InlineTightParens,
        syntax_kind::DICTIONARY_SOURCE_TYPE
        | syntax_kind::DICTIONARY_LAYOUT_TYPE
        | syntax_kind::DICTIONARY_RANGE => Routine::InlineTightParens,
        syntax_kind::ALTER_COMMAND_LIST => Routine::AlterCommandList,
        syntax_kind::UNION_CLAUSE => Routine::UnionClause,
        _ => Routine::Passthrough,
    }
}
